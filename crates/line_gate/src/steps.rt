// The steps that the calls of a gate are made of: each is one split, one join, one step on a word, or a join and the load that
// makes use of it. Under each stands one lemma on the rule.
ghost use Rattle.std.specs.Prelude.{◌≡◌, ◌≤◌, ◌<◌, ◌+◌, ◌^◌, ℕ, [], length, true, false, Some};
ghost use Rattle.line_gate.specs.Entries.{Extends, made_by, longer, AreBy};
ghost use Rattle.line_gate.specs.Views.{note_of, counting, pass_of, naming, named_note, learned, taking, shown, withdrawn, settled, appended, caught, told_of};

use crate::view::{
    Appends, Catches, Checks, Following, GateSeat, Learns, Looks, Marks, Naming, Notes, Numbers,
    Reads, Shows, Takes, Withdraws, Words,
};

/// Cuts a note off a seat.
pub(crate) fn note(words: &Words, seat: &mut GateSeat) -> GateSeat
    requires table { (seat.old.table_id ≡ words.now.table_id) × (words.now.table_id.words ≡ 2) }
    ensures seat { (seat.new.table_id ≡ seat.old.table_id) × (seat.new.me ≡ seat.old.me) }
    ensures note { (result.table_id ≡ seat.old.table_id) × (result.me ≡ (note_of seat.old.me.0, [])) }
{
    words.split_seat::<Notes>(seat)
}

/// Cuts a new pass off the book, under the book's count as its number, which no entry bears yet.
pub(crate) fn new_pass(words: &Words, book: &mut GateSeat) -> GateSeat
    requires table { (book.old.table_id ≡ words.now.table_id) × (words.now.table_id.words ≡ 2) }
    requires book { book.old.me.0.book ≡ true }
    ensures book { (book.new.table_id ≡ book.old.table_id) × (book.new.me ≡ (counting book.old.me.0, book.old.me.1)) }
    ensures pass { (result.table_id ≡ book.old.table_id) × (result.me ≡ (settled (pass_of book.old.me.0), [])) }
    ensures own { made_by book.old.me.0.count book.old.me.0.seen ≡ [] }
{
    let mut pass = words.split_seat::<Numbers>(book);
    words.load::<Looks>(&mut pass, 0);
    pass
}

/// The book names the entries, and so does the new note.
pub(crate) fn name<E: Following>(words: &Words, book: &mut GateSeat) -> GateSeat
    requires table { (book.old.table_id ≡ words.now.table_id) × (words.now.table_id.words ≡ 2) }
    requires book { (book.old.me.0.book ≡ true) × (book.old.me.0.named ≡ []) }
    ensures book { (book.new.table_id ≡ book.old.table_id) × (book.new.me ≡ (naming E.entries book.old.me.0, book.old.me.1)) }
    ensures note { (result.table_id ≡ book.old.table_id) × (result.me ≡ (named_note E.entries book.old.me.0, [])) }
{
    words.split_seat::<Naming<E>>(book)
}

/// A pass takes in a note or another pass, and has then seen what either had.
pub(crate) fn learn(words: &Words, pass: &mut GateSeat, other: GateSeat)
    requires table { (pass.old.table_id ≡ words.now.table_id) × (other.table_id ≡ words.now.table_id) × (words.now.table_id.words ≡ 2) }
    requires pass { (pass.old.me.0.book ≡ false) × (pass.old.me.0.named ≡ []) }
    requires other { other.me.1 ≡ [] }
    ensures pass { (pass.new.table_id ≡ pass.old.table_id) × (pass.new.me ≡ (settled (learned pass.old.me.0 other.me.0), pass.old.me.1)) }
    ensures had { Extends pass.old.me.0.seen (longer pass.old.me.0.seen other.me.0.seen) }
    ensures got { Extends other.me.0.seen (longer pass.old.me.0.seen other.me.0.seen) }
    ensures own { (n : ℕ) → pass.old.me.0.number ≡ Some n → made_by n pass.old.me.0.seen ≡ pass.old.me.0.made → made_by n (longer pass.old.me.0.seen other.me.0.seen) ≡ pass.old.me.0.made }
{
    words.join_seat::<Learns>(pass, other);
    words.load::<Looks>(pass, 0);
}

/// The book is shown a note or a pass, all of whose history it knows.
pub(crate) fn show(words: &Words, book: &mut GateSeat, other: GateSeat)
    requires table { (book.old.table_id ≡ words.now.table_id) × (other.table_id ≡ words.now.table_id) × (words.now.table_id.words ≡ 2) }
    requires book { (book.old.me.0.book ≡ true) × (book.old.me.0.named ≡ []) }
    requires other { other.me.1 ≡ [] }
    ensures book { (book.new.table_id ≡ book.old.table_id) × (book.new.me ≡ (settled book.old.me.0, book.old.me.1)) }
    ensures seen { Extends other.me.0.seen book.old.me.0.seen }
    ensures count { other.me.0.count ≤ book.old.me.0.count }
    ensures told { other.me.0.told ≤ book.old.me.0.told }
{
    words.join_seat::<Shows>(book, other);
    words.load::<Checks>(book, 0);
}

/// A pass that has seen as much takes in the note that names entries.
pub(crate) fn take(words: &Words, pass: &mut GateSeat, note: GateSeat)
    requires table { (pass.old.table_id ≡ words.now.table_id) × (note.table_id ≡ words.now.table_id) × (words.now.table_id.words ≡ 2) }
    requires pass { (pass.old.me.0.book ≡ false) × (pass.old.me.0.named ≡ []) }
    requires note { (note.me.0.book ≡ false) × (0 < length note.me.0.named) × (pass.old.me.0.seen ≡ note.me.0.seen) × (note.me.1 ≡ []) }
    ensures pass { (pass.new.table_id ≡ pass.old.table_id) × (pass.new.me ≡ (taking pass.old.me.0 note.me.0, pass.old.me.1)) }
{
    words.join_seat::<Takes>(pass, note);
}

/// A pass appends the first entries of those that it names, so many, all in one step.
pub(crate) fn append<E: Following>(words: &Words, pass: &mut GateSeat, number: u64, count: u64)
    requires table { (pass.old.table_id ≡ words.now.table_id) × (words.now.table_id.words ≡ 2) }
    requires pass { (pass.old.me.0.book ≡ false) × (pass.old.me.0.number ≡ Some number) }
    requires named { Extends E.entries pass.old.me.0.named }
    requires count { (length E.entries ≡ count) × (0 < count) × (count ≤ 64) }
    requires by { AreBy number E.entries }
    requires few { length pass.old.me.0.seen < 2 ^ 48 }
    ensures { (pass.new.table_id ≡ pass.old.table_id) × (pass.new.me ≡ (appended E.entries pass.old.me.0, pass.old.me.1)) }
{
    let _number = number;
    words.fetch_add::<Appends>(pass, 0, count);
}

/// The book sees the entries that were appended, of which it is shown a note, and names nothing then.
pub(crate) fn catch(words: &Words, book: &mut GateSeat, note: GateSeat)
    requires table { (book.old.table_id ≡ words.now.table_id) × (note.table_id ≡ words.now.table_id) × (words.now.table_id.words ≡ 2) }
    requires book { book.old.me.0.book ≡ true }
    requires note { (length book.old.me.0.seen < length note.me.0.seen) × (note.me.1 ≡ []) }
    ensures { (book.new.table_id ≡ book.old.table_id) × (book.new.me ≡ (caught (shown book.old.me.0 note.me.0), book.old.me.1)) }
{
    words.join_seat::<Shows>(book, note);
    words.load::<Catches>(book, 0);
}

/// The book takes the note back that names entries, of which none was appended. Nothing is named then.
pub(crate) fn withdraw(words: &Words, book: &mut GateSeat, note: GateSeat)
    requires table { (book.old.table_id ≡ words.now.table_id) × (note.table_id ≡ words.now.table_id) × (words.now.table_id.words ≡ 2) }
    requires book { book.old.me.0.book ≡ true }
    requires note { (note.me.0.book ≡ false) × (0 < length note.me.0.named) × (note.me.1 ≡ []) }
    ensures { (book.new.table_id ≡ book.old.table_id) × (book.new.me ≡ (withdrawn book.old.me.0 note.me.0, book.old.me.1)) }
{
    words.join_seat::<Withdraws>(book, note);
}

/// The book raises the count of disk faults that was told.
pub(crate) fn mark(words: &Words, book: &mut GateSeat, faults: u64)
    requires table { (book.old.table_id ≡ words.now.table_id) × (words.now.table_id.words ≡ 2) }
    requires book { (book.old.me.0.book ≡ true) × (book.old.me.0.told ≤ faults) }
    ensures { (book.new.table_id ≡ book.old.table_id) × (book.new.me ≡ (told_of faults book.old.me.0, book.old.me.1)) }
{
    words.fetch_max::<Marks>(book, 1, faults);
}

/// A pass reads the count of disk faults that was told.
pub(crate) fn read(words: &Words, pass: &mut GateSeat) -> u64
    requires table { (pass.old.table_id ≡ words.now.table_id) × (words.now.table_id.words ≡ 2) }
    requires pass { pass.old.me.0.book ≡ false }
    ensures pass { (pass.new.table_id ≡ pass.old.table_id) × (pass.new.me ≡ (told_of result pass.old.me.0, pass.old.me.1)) }
    ensures more { pass.old.me.0.told ≤ result }
{
    words.load::<Reads>(pass, 1)
}
