// The signal of Contact ID data.
ghost use Rattle.std.specs.Prelude.{◌≡◌};
ghost use Rattle.alarm_rules.specs.ContactId.{contact_id_kind, contact_id_signal, is_contact_id, is_qualifier};
ghost use Rattle.alarm_rules.specs.Signals.{data_of};

use crate::class::class_of;
use alarm_rules::is_hex;
use alarm_signal::{Class, Kind, Signal, Txt, data_of};

/// The signal of a content with Contact ID data: a qualifier, the code, the group and the zone or user. None exactly where
/// the data, which ends before the first `]`, is not of this form. The code of the signal is the three digits as they
/// stand; group and zone have no effect. Takes no memory.
pub fn read(content: &[u8]) -> Option<Signal>
    ensures { result ≡ contact_id_signal (data_of content.now) }
{
    let data = data_of(content);
    if !is_contact_id(data) {
        return None;
    }
    let code = &data[1..4];
    let class = class_of(code);
    Some(Signal {
        class,
        kind: kind_of(class, data[0]),
        code: Txt::of(code).unwrap(),
    })
}

// Whether the data has the form: a qualifier, the code, a space, the group, a space, the zone or user. All eleven bytes are
// looked at, without a branch for each.
fn is_contact_id(data: &[u8]) -> bool
    ensures { result ≡ is_contact_id «data».now }
{
    if data.len() != 11 {
        return false;
    }
    is_qualifier(data[0])
        & is_hex(data[1])
        & is_hex(data[2])
        & is_hex(data[3])
        & (data[4] == b' ')
        & is_hex(data[5])
        & is_hex(data[6])
        & (data[7] == b' ')
        & is_hex(data[8])
        & is_hex(data[9])
        & is_hex(data[10])
}

fn is_qualifier(byte: u8) -> bool
    ensures { result ≡ is_qualifier byte }
{
    matches!(byte, b'1' | b'3' | b'6')
}

// What a qualifier says of a code of the class.
fn kind_of(class: Class, qualifier: u8) -> Kind
    ensures { result ≡ contact_id_kind class qualifier }
{
    match (class, qualifier) {
        (Class::Unlisted, _) => Kind::New,
        (Class::Cancel | Class::Bypass | Class::Test | Class::Program, _) => Kind::LogOnly,
        (Class::OpenClose, b'1') => Kind::Opening,
        (Class::OpenClose, b'3') => Kind::Closing,
        (Class::OpenClose, _) => Kind::LogOnly,
        (_, b'1') => Kind::New,
        (_, b'3') => Kind::Restore,
        (_, _) => Kind::Again,
    }
}
