// The profile of a target, with the marks that it reads.
ghost use Rattle.std.specs.Prelude.{◌≡◌, ◌≤◌, ◌+◌, ◌++◌, ◌∷◌, [], None, IfOk, OnOk};
ghost use Rattle.view_types.specs.declared.mark.Mark.TheVariants.{IpPod, IpService, Obj};
ghost use Rattle.view_rules.specs.Endpoints.{service_key};
ghost use Rattle.view_rules.specs.Profiles.{address_profile, profile, profile_key, service_at, service_profile};
ghost use Rattle.mark_rules.specs.Reads.{address_reads, client_marks, cost, count_at, profile_reads_of, service_profile_reads};

use mesh_base::key::Kind;
use mesh_base::list::List;
use mesh_base::memory::Memory;
use mesh_base::steps::Steps;
use mesh_base::text::Text;
use net_cidr::ip::Ip;
use net_cidr::packed_ip::PackedIp;
use policy_rows::snapshot::Snapshot;
use row_reads::references::add_key;
use row_table::plain_row::PlainRow;
use view_scratch::address::{pod_at, service_at};
use view_scratch::profile::{ServicePort, pod_profile, service_profile};
use view_types::mark::Mark;
use view_types::outbound::ProfileView;
use view_types::query::Target;

/// The inputs of the profiles for a client.
#[derive(Clone, Copy)]
pub(crate) struct Lookup<'a> {
    pub(crate) from: Snapshot<'a>,
    /// The namespace of the client, if it declares one.
    pub(crate) client: &'a Option<Text>,
}

impl Lookup<'_> {
    /// Returns the profile of a target.
    pub(crate) fn target<L>(
        &self,
        target: &Target,
        steps: &mut Steps<L>,
    ) -> Result<PlainRow<ProfileView>, Memory>
        ensures row { IfOk result (λ found. found.row ≡ profile self.now.from.config.now
            self.now.from.store.now.objects target.now self.now.client.now) }
        ensures marks { IfOk result (λ found. found.marks ≡ profile_reads_of
            self.now.from.config.now self.now.from.store.now.objects self.now.client.now
            target.now) }
        ensures steps { steps.new ≤ steps.old + cost self.now.from.store.now.objects
            (profile_reads_of self.now.from.config.now self.now.from.store.now.objects
            self.now.client.now target.now) }
    {
        match target {
            Target::Service { ns, name, port } => {
                let port = *port;
                let marks = List::new(self.from.alloc);
                self.service(&ServicePort { ns, name, port }, marks, steps)
            }
            Target::Address { ip, port } => self.address(ip.get(), *port, steps),
        }
    }

    fn address<L>(
        &self,
        ip: Ip,
        port: u16,
        steps: &mut Steps<L>,
    ) -> Result<PlainRow<ProfileView>, Memory>
        ensures row { IfOk result (λ found. found.row ≡ address_profile self.now.from.config.now
            self.now.from.store.now.objects self.now.client.now ip port
            (service_at self.now.from.store.now.objects ip)) }
        ensures marks { IfOk result (λ found. found.marks ≡ IpService ip ∷ address_reads
            (service_profile_reads self.now.from.config.now self.now.client.now) ip
            (service_at self.now.from.store.now.objects ip)) }
        ensures steps { steps.new ≤ steps.old + cost self.now.from.store.now.objects (IpService ip
            ∷ address_reads (service_profile_reads self.now.from.config.now self.now.client.now) ip
            (service_at self.now.from.store.now.objects ip)) }
    {
        let mut marks = List::new(self.from.alloc);
        marks.add(Mark::IpService(PackedIp::new(ip)))?;
        match service_at(self.from.store, ip, steps)? {
            Some(service) => {
                let ns = &service.meta.ns;
                let name = &service.meta.name;
                self.service(&ServicePort { ns, name, port }, marks, steps)
            }
            None => self.pod(ip, port, marks, steps),
        }
    }

    // Returns the profile of an address that no Service has. Its mark is added to these.
    fn pod<L>(
        &self,
        ip: Ip,
        port: u16,
        marks: List<Mark>,
        steps: &mut Steps<L>,
    ) -> Result<PlainRow<ProfileView>, Memory>
        ensures row { IfOk result (λ found. found.row ≡ address_profile self.now.from.config.now
            self.now.from.store.now.objects self.now.client.now ip port None) }
        ensures marks { IfOk result (λ found. found.marks ≡ marks ++ IpPod ip ∷ []) }
        ensures steps { steps.new ≤ steps.old
            + count_at self.now.from.store.now.objects (IpPod ip) }
    {
        let mut marks = marks;
        marks.add(Mark::IpPod(PackedIp::new(ip)))?;
        let pod = pod_at(self.from.store, ip, steps)?;
        let row = pod_profile(self.from.alloc, self.from.config, pod, ip, port)?;
        Ok(PlainRow { row, marks })
    }

    // Returns the profile of a Service. Its marks are added to these.
    fn service<L>(
        &self,
        asked: &ServicePort,
        marks: List<Mark>,
        steps: &mut Steps<L>,
    ) -> Result<PlainRow<ProfileView>, Memory>
        ensures row { IfOk result (λ found. found.row ≡ service_profile self.now.from.config.now
            self.now.from.store.now.objects self.now.client.now asked.now.ns.now
            asked.now.name.now asked.now.port) }
        ensures marks { IfOk result (λ found. found.marks ≡ marks ++ service_profile_reads
            self.now.from.config.now self.now.client.now asked.now.ns.now asked.now.name.now) }
        ensures steps { steps.new ≤ steps.old + cost self.now.from.store.now.objects
            (service_profile_reads self.now.from.config.now self.now.client.now asked.now.ns.now
            asked.now.name.now) }
    {
        let row = service_profile(&self.from, self.client, asked, steps)?;
        let marks = add_marks(marks, self.client, asked, &row.fqn)?;
        Ok(PlainRow { row, marks })
    }
}

// Adds the marks of a Service's profiles, which have this name, and that of the Service.
fn add_marks(
    marks: List<Mark>,
    client: &Option<Text>,
    asked: &ServicePort,
    full: &Text,
) -> Result<List<Mark>, Memory>
    ensures { IfOk result (λ all. all ≡ marks ++ (client_marks client.now full.now
        ++ Obj (profile_key asked.now.ns.now full.now)
        ∷ Obj (service_key asked.now.ns.now asked.now.name.now) ∷ [])) }
{
    let mut all = marks;
    add_client(&mut all, client, full)?;
    add_key(&mut all, Kind::ServiceProfile, asked.ns, full)?;
    add_key(&mut all, Kind::Service, asked.ns, asked.name)?;
    Ok(all)
}

fn add_client(marks: &mut List<Mark>, client: &Option<Text>, full: &Text) -> Result<(), Memory>
    ensures { OnOk result (marks.new ≡ marks.old ++ client_marks client.now full.now) }
{
    match client {
        Some(client) => add_key(marks, Kind::ServiceProfile, client, full),
        None => Ok(()),
    }
}
