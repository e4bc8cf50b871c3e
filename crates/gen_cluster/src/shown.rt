// Parts of lines, as values to format: those of a Pod, by its number.
ghost use Rattle.std.specs.Prelude.{Some};
ghost use Rattle.gen_cluster.specs.Generated.{address, mesh_label};

use std::fmt;

#[derive(Clone, Copy, Drop)]
pub(crate) struct Address(pub(crate) u32);

impl fmt::Display for Address {
    ghost output = { λ pod. Some (address pod.0) };

    #[tactic(auto, unfolding(crate::specs::Generated::address))]
    fn fmt<W: fmt::Write>(&self, f: &mut fmt::Formatter<W>) -> fmt::Result {
        let net = self.0 / 250;
        let host = self.0 % 250 + 1;
        write!(f, "10.0.{net}.{host}")
    }
}

// The label of a meshed Pod, after another label; nothing for other Pods.
#[derive(Clone, Copy, Drop)]
pub(crate) struct MeshLabel(pub(crate) u32);

impl fmt::Display for MeshLabel {
    ghost output = { λ pod. Some (mesh_label pod.0) };

    #[tactic(auto, unfolding(crate::specs::Generated::mesh_label))]
    fn fmt<W: fmt::Write>(&self, f: &mut fmt::Formatter<W>) -> fmt::Result {
        if self.0 % 2 == 0 {
            write!(f, ",\"linkerd.io/control-plane-ns\":\"linkerd\"")
        } else {
            Ok(())
        }
    }
}
