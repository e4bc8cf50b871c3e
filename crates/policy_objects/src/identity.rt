ghost use Rattle.std.specs.Prelude.{◌≡◌, ◌++◌, unwrap_or, IfOk};
ghost use Rattle.k8s_meta.specs.Spots.{Reads, seen};
ghost use Rattle.policy_objects.specs.Identities.{account_at, identity_of, identity_ref_at, written_at};

use crate::reference::Reference;
use k8s_meta::fault::ReadFault;
use k8s_meta::key::Key;
use k8s_meta::place::Place;
use k8s_meta::reader::Reader;
use k8s_meta::words::{AnyText, Name, Namespace};
use mesh_base::list::List;
use mesh_base::memory::Memory;
use mesh_base::text::Text;
use std::alloc::Global;
use view_types::authn::{IdSpec, Ref, RefKind};

/// An identity, as written in an object.
pub struct WrittenIdentity;

impl Reader for WrittenIdentity {
    type Made = IdSpec;

    ghost reading = { λ _. written_at };

    #[tactic(auto, unfolding(k8s_meta::specs::Spots::then))]
    fn read<'a>(&self, place: &'a Place<'a>) -> Result<IdSpec, ReadFault> {
        let text = AnyText.read(place)?;
        Ok(IdSpec::Written(text))
    }
}

/// A service account. The default namespace is that of the object.
#[derive(Clone, Copy)]
pub struct ServiceAccount<'b> {
    pub own: &'b str,
}

impl<'b> Reader for ServiceAccount<'b> {
    type Made = IdSpec;

    ghost reading = { λ r. account_at r.own.now };

    #[tactic(auto, unfolding(k8s_meta::specs::Spots::then, crate::specs::Identities::account_at))]
    fn read<'a>(&self, place: &'a Place<'a>) -> Result<IdSpec, ReadFault> {
        place.object()?;
        let name = place.required(Key::Name, &Name)?;
        let ns = place.text_or(Key::Namespace, &Namespace, self.own)?;
        Ok(IdSpec::Account { ns, name })
    }
}

/// A reference to a service account, or to all accounts of a namespace; None for other kinds.
#[derive(Clone, Copy)]
pub struct IdentityRef<'b> {
    pub own: &'b str,
}

impl<'b> Reader for IdentityRef<'b> {
    type Made = Option<IdSpec>;

    ghost reading = { λ r. identity_ref_at r.own.now };

    #[tactic(auto, unfolding(k8s_meta::specs::Spots::then))]
    fn read<'a>(&self, place: &'a Place<'a>) -> Result<Option<IdSpec>, ReadFault> {
        let found = Reference.read(place)?;
        Ok(identity_of(place.alloc(), self.own, found)?)
    }
}

fn identity_of(alloc: Global, own: &str, found: Ref) -> Result<Option<IdSpec>, Memory>
    ensures { IfOk result (λ id. id ≡ identity_of own.now found) }
{
    let Ref { kind, ns, name } = found;
    match kind {
        RefKind::ServiceAccount => {
            let ns = namespace_or(alloc, ns, own)?;
            Ok(Some(IdSpec::Account { ns, name }))
        }
        RefKind::Namespace => Ok(Some(IdSpec::Namespace(name))),
        _ => Ok(None),
    }
}

fn namespace_or(alloc: Global, ns: Option<Text>, own: &str) -> Result<Text, Memory>
    ensures { IfOk result (λ text. text ≡ unwrap_or ns own.now) }
{
    match ns {
        Some(ns) => Ok(ns),
        None => Text::from_str(alloc, own),
    }
}

/// Concatenates two lists of identities.
pub fn joined(first: List<IdSpec>, others: List<IdSpec>) -> Result<List<IdSpec>, Memory>
    ensures { IfOk result (λ all. all ≡ first ++ others) }
{
    let mut all = first;
    for id in others.into_vec() {
        all.add(id)?;
    }
    Ok(all)
}
