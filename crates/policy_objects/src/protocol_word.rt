ghost use Rattle.policy_objects.specs.ProtocolWords.{protocol_of};

use k8s_meta::choice::Word;
use view_types::policy::Protocol;

/// The names of protocols.
pub struct ProtocolWord;

impl Word for ProtocolWord {
    type Meaning = Protocol;

    ghost meaning = { λ _. protocol_of };

    fn meaning_of(&self, text: &str) -> Option<Protocol> {
        if text == "unknown" {
            Some(Protocol::Unknown)
        } else if text == "HTTP/1" {
            Some(Protocol::Http1)
        } else if text == "HTTP/2" {
            Some(Protocol::Http2)
        } else if text == "gRPC" {
            Some(Protocol::Grpc)
        } else if text == "opaque" {
            Some(Protocol::Opaque)
        } else if text == "TLS" {
            Some(Protocol::Tls)
        } else {
            None
        }
    }
}
