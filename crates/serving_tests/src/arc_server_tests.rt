// What runs of the program rest on, by the public calls that they make: a line over disks that fail or stop, and doors that end or
// fail. The program is no library: what it writes itself is shown by tools/check.
mod ends;
mod failing_disks;

const SETUP: &[u8] = b"account 1234\noperator ann 1234\noperator bob 5678\n";
