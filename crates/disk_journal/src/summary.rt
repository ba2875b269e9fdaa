// Which of the bodies in an area is that of a summary.
ghost use Rattle.std.specs.Prelude.{◌≡◌, ◌<◌, ◌+◌, ◌^◌, [], length, is_some};
ghost use Rattle.std.specs.Int.{from_be_bytes, w64};
ghost use Rattle.disk_journal.specs.Reading.{generation_found};
ghost use Rattle.disk_journal.specs.Records.{size};
ghost use Rattle.disk_journal.specs.Standing.{records_in, size_of, summary_in};

use crate::bodies::Bodies;

// How many bodies are those of records.
pub fn records_of(found: Option<u64>, bodies: &Bodies) -> u64
    ensures { result ≡ length (records_in (is_some found) bodies.now) }
{
    let count = bodies.count() as u64;
    if found.is_some() && count > 0 {
        count - 1
    } else {
        count
    }
}

// The place of the gate behind the summary, or of the first one where there is none.
pub fn place_behind(found: Option<u64>, bodies: &Bodies) -> u64
    requires fits { size bodies.now < 2 ^ 64 }
    ensures { result + 1 ≡ size_of (summary_in (is_some found) bodies.now) [] }
{
    if found.is_some() && bodies.count() > 0 {
        21 + bodies.at(0).len() as u64
    } else {
        16
    }
}

// The generation of the summary, as its body has it, or as it was found where its body is too short to have it; 0 without one.
pub fn generation_of(found: Option<u64>, bodies: &Bodies) -> u64
    ensures { result ≡ generation_found found bodies.now }
{
    let Some(number) = found else {
        return 0;
    };
    if bodies.count() == 0 {
        return 0;
    }
    let first = bodies.at(0);
    if first.len() < 9 {
        return number;
    }
    number_in(&first[1..9])
}

fn number_in(bytes: &[u8]) -> u64
    requires { length bytes.now ≡ 8 }
    ensures { result ≡ from_be_bytes w64 bytes.now }
{
    let mut number = [0; 8];
    number.copy_from_slice(bytes);
    u64::from_be_bytes(number)
}
