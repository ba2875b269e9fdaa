// The frames that a receiver writes.
ghost use Rattle.std.specs.Prelude.{◌≡◌, ◌≤◌, ◌+◌, [], ◌∷◌, ◌++◌, length, true};
ghost use Rattle.dc09_frame.specs.Frames.{is_clean, frame_of, IsBody};
ghost use Rattle.dc09_frame.specs.Headers.{IsHeader, word_of, receiver_field, fields, echo_body, nak_body};
ghost use Rattle.std.specs.List.{list_all};

use crate::frame_buf::FrameBuf;
use crate::header::{Echo, Header};
use crate::limits::FRAME_LIMIT;
use arc_text::Txt;

/// Makes `out` the frame of a body.
pub fn write_frame(body: &[u8], out: &mut FrameBuf)
    requires { IsBody body.now }
    ensures { out.new ≡ frame_of body.now }
{
    out.begin_frame();
    out.append(body);
    out.end_frame();
}

/// Makes `out` the frame of a reply that echoes a header: its word, the header's sequence, `R` field, `L` field and
/// account byte for byte, and an empty block.
pub fn write_echo(word: Echo, header: &Header, out: &mut FrameBuf)
    requires { IsHeader header.now }
    ensures frame { out.new ≡ frame_of (echo_body word header.now) }
    ensures body { IsBody (echo_body word header.now) }
{
    out.begin_frame();
    out.append(quoted_word_of(word));
    append_fields(header, out);
    out.append(b"[]");
    out.end_frame();
}

/// Makes `out` the frame of the reply `NAK` (DC-09, the NAK reply), which refuses a message for its time and tells the
/// receiver's: a sequence and fields of zeros, an empty block, and the stamp.
pub fn write_nak(stamp: &[u8; 20], out: &mut FrameBuf)
    requires { list_all is_clean stamp.now ≡ true }
    ensures frame { out.new ≡ frame_of (nak_body stamp.now) }
    ensures body { IsBody (nak_body stamp.now) }
{
    out.begin_frame();
    out.append(b"\"NAK\"0000R0L0A0[]");
    out.append(stamp);
    out.end_frame();
}

// The word of a reply in double quotes.
fn quoted_word_of(word: Echo) -> &'static [u8]
    ensures { result.now ≡ 34 ∷ word_of word ++ 34 ∷ [] }
{
    match word {
        Echo::Ack => b"\"ACK\"",
        Echo::Duh => b"\"DUH\"",
    }
}

/// Puts the header's sequence, `R` field, `L` field and account behind the bytes that stand there, as they came, where there is
/// room. A frame that has more to hold than a reply of this crate is made of them: `begin_frame`, then the body's parts, then `end_frame`.
pub fn append_fields(header: &Header, out: &mut FrameBuf)
    requires { length out.old + length (fields header.now) ≤ FRAME_LIMIT }
    ensures { out.new ≡ out.old ++ fields header.now }
{
    out.append(&header.seq);
    append_receiver(&header.receiver, out);
    out.append(b"L");
    out.append(header.line.bytes());
    out.append(b"#");
    out.append(header.account.bytes());
}

fn append_receiver(receiver: &Option<Txt>, out: &mut FrameBuf)
    requires { length out.old + length (receiver_field receiver.now) ≤ FRAME_LIMIT }
    ensures value { out.new ≡ out.old ++ receiver_field receiver.now }
{
    if let Some(digits) = receiver {
        out.append(b"R");
        out.append(digits.bytes());
    }
}
