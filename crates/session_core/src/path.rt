// The paths of links.
ghost use Rattle.std.specs.Prelude.{◌≡◌};
ghost use Rattle.session_core.specs.Paths.{path_of};

use crate::session::Path;
use view_types::query::Method;

/// Returns the path that a line names, if it names one.
#[tactic(auto, unfolding(crate::specs::Paths::path_of))]
pub fn path_of(line: &[u8]) -> Option<Path>
    ensures { result ≡ path_of line.now }
{
    if line == b"/feed".as_slice() {
        Some(Path::Feed)
    } else if line == b"/io.linkerd.proxy.destination.Destination/Get".as_slice() {
        Some(Path::Asks(Method::Get))
    } else if line == b"/io.linkerd.proxy.destination.Destination/GetProfile".as_slice() {
        Some(Path::Asks(Method::GetProfile))
    } else if line == b"/io.linkerd.proxy.inbound.InboundServerPolicies/WatchPort".as_slice() {
        Some(Path::Asks(Method::WatchPort))
    } else if line == b"/io.linkerd.proxy.outbound.OutboundPolicies/Watch".as_slice() {
        Some(Path::Asks(Method::Watch))
    } else if line == b"/io.linkerd.proxy.inbound.InboundServerPolicies/WatchPort2".as_slice() {
        Some(Path::Asks(Method::WatchPort2))
    } else {
        None
    }
}
