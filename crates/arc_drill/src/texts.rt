// The lines of a drill's script, part by part.
ghost use Rattle.std.specs.Prelude.{◌≡◌, ◌+◌, ◌≤◌, ◌++◌, codes, length};
ghost use Rattle.arc_drill.specs.Texts.{digit, four_digits, data_of, account_of, clock_line, message_line, message_lines, closing_lines};

use crate::lines::Lines;

/// The moment that the script begins at.
pub(crate) const BEGINNING: u64 = 1_000_000_000;

// Puts a line that sets the clock, in place of other lines.
pub(crate) fn put_clock(lines: &mut Lines, moment: u64)
    ensures text { lines.new ≡ clock_line moment }
    ensures size { length lines.new ≤ 23 }
{
    lines.clear();
    lines.put(b"T ");
    lines.put_number(moment);
    lines.put(b"\n");
}

// Puts the lines of the message of this number, in place of other lines.
pub(crate) fn put_messages(lines: &mut Lines, i: u32)
    requires { 1 ≤ i }
    ensures { lines.new ≡ message_lines i }
{
    put_clock(lines, BEGINNING + u64::from(i));
    put_message(lines, i);
    if i % 7 == 0 {
        put_message(lines, i);
    }
}

// Puts the line of the message.
fn put_message(lines: &mut Lines, i: u32)
    requires first { 1 ≤ i }
    requires room { length lines.old + 100 ≤ 256 }
    ensures text { lines.new ≡ lines.old ++ message_line i }
    ensures size { length lines.new ≤ length lines.old + 100 }
{
    lines.put(b"M 1 \"ADM-CID\"");
    lines.put(&four_digits((i - 1) / 10 % 9999 + 1));
    lines.put(b"L0#");
    put_account(lines, i);
    lines.put(b"[#");
    put_account(lines, i);
    lines.put(b"|");
    lines.put(data(i));
    lines.put(b"]\n");
}

// Puts the account of the message.
fn put_account(lines: &mut Lines, i: u32)
    requires { length lines.old + 20 ≤ 256 }
    ensures text { lines.new ≡ lines.old ++ account_of i }
    ensures size { length lines.new ≤ length lines.old + 20 }
{
    lines.put_number(u64::from(1000 + i % 10));
}

// A number below 10,000 as four digits.
fn four_digits(n: u32) -> [u8; 4]
    ensures { result ≡ four_digits n }
{
    [digit(n / 1000), digit(n / 100), digit(n / 10), digit(n)]
}

// The lowest digit.
fn digit(n: u32) -> u8
    ensures { result ≡ digit n }
{
    b'0' + (n % 10) as u8
}

// What the message reports.
fn data(i: u32) -> &'static [u8]
    ensures text { result.now ≡ data_of i }
    ensures size { length result.now ≡ 11 }
{
    match i % 3 {
        0 => b"1131 01 001",
        1 => b"1110 01 002",
        _ => b"3131 01 001",
    }
}

// Puts the line that logs the operator in, in place of other lines.
pub(crate) fn put_login(lines: &mut Lines)
    ensures { lines.new ≡ codes "D 1 login drill 1234\n" }
{
    lines.clear();
    lines.put(b"D 1 login drill 1234\n");
}

// Puts the lines that close the incident of this number, in place of other lines.
pub(crate) fn put_closing(lines: &mut Lines, k: u32)
    ensures { lines.new ≡ closing_lines k }
{
    let number = u64::from(k);
    lines.clear();
    lines.put(b"D 1 claim ");
    lines.put_number(number);
    lines.put(b"\nD 1 act ");
    lines.put_number(number);
    lines.put(b" note done\nD 1 close ");
    lines.put_number(number);
    lines.put(b" real\n");
}
