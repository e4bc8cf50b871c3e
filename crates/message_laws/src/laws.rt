ghost use Rattle.std.specs.Prelude.{◌≡◌, ◌*◌, ◌+◌, ◌≤◌, length, Ok};
ghost use Rattle.view_types.specs.declared.message.Message.{Message};
ghost use Rattle.proxy_proto.specs.MessageReading.{message_of};
ghost use Rattle.proxy_proto.specs.Messages.{canonical};
ghost use Rattle.proxy_proto.specs.Plain.{IsPlainMessage, count_in};
ghost use Rattle.proxy_proto.specs.Sendable.{IsSendable, method_of};

/// States that the encoding of a sendable message is read back as that message.
pub fn messages_read_back()
    ensures { (message : Message) → IsSendable message
        → message_of (method_of message) (canonical message) ≡ Ok message }
{}

/// States that no two sendable messages have the same encoding.
pub fn spellings_differ()
    ensures { (one other : Message) → IsSendable one → IsSendable other
        → method_of one ≡ method_of other → canonical one ≡ canonical other → one ≡ other }
{}

/// States that a message whose rows have no labels, identity and hint takes at most 84 bytes for
/// each address and 11 more, far below the 2^32 bytes that no frame can hold.
pub fn plain_messages_are_short()
    ensures { (message : Message) → IsPlainMessage message
        → length (canonical message) ≤ 84 * count_in message + 11 }
{}
