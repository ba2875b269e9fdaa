// A screen, and its turns.
ghost use Rattle.std.specs.Prelude.{◌≡◌, [], ◌∷◌};
ghost use Rattle.alarm_rules.specs.SetupLines.{after};
ghost use Rattle.desk_screen.specs.Asking.{code_of};
ghost use Rattle.desk_screen.specs.Inputs.{Sitting, Key, Answer, Second, Made, Lost, news};
ghost use Rattle.desk_screen.specs.Plain.{answered_after};
ghost use Rattle.desk_screen.specs.Stands.{IsTurn, StandsFor, turn};

use crate::asking::{code_said, gone_on, key_asks};
use crate::deed::Deed;
use crate::keyboard::Keyboard;
use crate::order::Order;
use crate::own::{Due, Own};
use crate::owning::{own_number, own_told, same_number, untold_number, with_due, worked_on};
use crate::plain::Plain;
use crate::queue::{Queue, Waiting};
use crate::reaction::Reaction;
use crate::sending;
use crate::serial::{behind_key, broken_off};
use crate::series::Series;
use crate::session::Session;
use crate::watch::Watch;
use arc_data::CloseCode;
use desk_said::{Said, read};

/// A screen at which an operator works the desk. It begins without a connection. Each call is one turn of its sitting: what comes, and
/// what is to be done. No call takes memory.
#[derive(Drop)]
pub struct Screen {
    pub(crate) session: Session,
    pub(crate) own: Option<Own>,
    pub(crate) watch: Watch,
    pub(crate) keyboard: Keyboard,
    pub(crate) answered: Option<Deed>,
    pub(crate) series: Option<Series>,
}

// What a line says, where a command waits for it.
fn heard(way: &Option<Order>, line: &[u8]) -> Said
    ensures { result ≡ news (Answer line.now) way.now }
{
    match way {
        Some(_) => read(line),
        None => Said::Strange,
    }
}

// The last answered command behind a line of the desk.
fn answered(way: &Option<Order>, line: &[u8], before: Option<Deed>) -> Option<Deed>
    ensures { result ≡ answered_after (Answer line.now) way.now before }
{
    match way {
        Some(Order::Typed(command)) => Some(Deed {
            command: *command,
            answer: Plain::of(line),
        }),
        Some(Order::Polled(_)) | None => before,
    }
}

impl Screen {
    /// A screen before its first turn, without a connection.
    pub fn new() -> Screen
        ensures { StandsFor result [] }
    {
        Screen {
            session: Session {
                connected: false,
                user: None,
                way: None,
                wish: None,
                undone: None,
                show_owed: false,
                list_owed: false,
                silence: 0,
            },
            own: None,
            watch: Watch {
                queue: Queue::new(),
                total: 0,
                clock: 0,
                quiet: 20,
                muted: 0,
            },
            keyboard: Keyboard::new(),
            answered: None,
            series: None,
        }
    }

    // The operator presses a key.
    fn pressed(&mut self, key: u8) -> Reaction
        ensures { IsTurn (Key key) result self.old self.new }
    {
        let asked = key_asks(&self.session, &self.own, &self.keyboard, key);
        self.series = behind_key(key, &asked, &self.series);
        let user = self.session.user;
        self.keyboard = self.keyboard.pressed(key, &user);
        self.watch.pressed(key, user.is_some());
        let (session, sent) = sending::keyed(&self.session, &asked, untold_number(&self.own));
        self.session = session;
        Reaction {
            asked,
            sent,
            rung: false,
        }
    }

    // A line comes from the desk.
    fn told(&mut self, line: &[u8]) -> Reaction
        ensures { IsTurn (Answer line.now) result self.old self.new }
    {
        let said = heard(&self.session.way, line);
        let before = self.answered.take();
        self.answered = answered(&self.session.way, line, before);
        let number = own_number(&self.own);
        let about = worked_on(&self.session.way);
        self.own = own_told(&said, about, &self.session.user, &self.own);
        let after = own_number(&self.own);
        let same = same_number(number, after);
        self.keyboard = self.keyboard.behind(&said, same);
        let rung = self.watch.told(&said);
        let (asked, series) = gone_on(&self.session, &said, &self.own, &self.series);
        self.series = series;
        let number = untold_number(&self.own);
        let (session, sent) = sending::told(&self.session, &said, &asked, number);
        self.session = session;
        Reaction { asked, sent, rung }
    }

    // A second has passed.
    fn ticked(&mut self) -> Reaction
        ensures { IsTurn Second result self.old self.new }
    {
        let rung = self.watch.ticked();
        let (session, sent) = sending::ticked(&self.session, untold_number(&self.own));
        self.session = session;
        Reaction {
            asked: None,
            sent,
            rung,
        }
    }

    // A connection is made.
    fn joined(&mut self) -> Reaction
        ensures { IsTurn Made result self.old self.new }
    {
        self.own = with_due(Due::Untold, &self.own);
        self.keyboard = self.keyboard.begun_anew();
        self.series = broken_off(&self.series);
        let (session, sent) = sending::made(&self.session, untold_number(&self.own));
        self.session = session;
        Reaction {
            asked: None,
            sent,
            rung: false,
        }
    }

    // The connection is lost.
    fn parted(&mut self) -> Reaction
        ensures { IsTurn Lost result self.old self.new }
    {
        self.own = with_due(Due::Untold, &self.own);
        self.keyboard = self.keyboard.begun_anew();
        self.series = broken_off(&self.series);
        let (session, sent) = sending::lost(&self.session, untold_number(&self.own));
        self.session = session;
        Reaction {
            asked: None,
            sent,
            rung: false,
        }
    }

    /// The operator presses a key.
    pub fn key(&mut self, key: u8) -> Reaction
        ensures turn { IsTurn (Key key) result self.old self.new }
        ensures stands { (s : Sitting) → StandsFor self.old s → StandsFor self.new (turn (Key key) result ∷ s) }
    {
        self.pressed(key)
    }

    /// A line comes from the desk, without its end.
    pub fn answer(&mut self, line: &[u8]) -> Reaction
        ensures turn { IsTurn (Answer line.now) result self.old self.new }
        ensures stands { (s : Sitting) → StandsFor self.old s → StandsFor self.new (turn (Answer line.now) result ∷ s) }
    {
        self.told(line)
    }

    /// A second has passed.
    pub fn second(&mut self) -> Reaction
        ensures turn { IsTurn Second result self.old self.new }
        ensures stands { (s : Sitting) → StandsFor self.old s → StandsFor self.new (turn Second result ∷ s) }
    {
        self.ticked()
    }

    /// A connection with the desk is made.
    pub fn made(&mut self) -> Reaction
        ensures turn { IsTurn Made result self.old self.new }
        ensures stands { (s : Sitting) → StandsFor self.old s → StandsFor self.new (turn Made result ∷ s) }
    {
        self.joined()
    }

    /// The connection with the desk is lost.
    pub fn lost(&mut self) -> Reaction
        ensures turn { IsTurn Lost result self.old self.new }
        ensures stands { (s : Sitting) → StandsFor self.old s → StandsFor self.new (turn Lost result ∷ s) }
    {
        self.parted()
    }

    /// The session with the desk.
    pub fn session(&self) -> &Session
        ensures { result.now ≡ self.now.session }
    {
        &self.session
    }

    /// The operator's own incident.
    pub fn own(&self) -> &Option<Own>
        ensures { result.now ≡ self.now.own }
    {
        &self.own
    }

    /// The incidents of the last list.
    pub fn queue(&self) -> &[Waiting]
        ensures { result.now ≡ self.now.watch.queue }
    {
        self.watch.queue.items()
    }

    /// How many incidents are open.
    pub fn total(&self) -> u64
        ensures { result ≡ self.now.watch.total }
    {
        self.watch.total
    }

    /// How many seconds of the sitting have passed.
    pub fn clock(&self) -> u64
        ensures { result ≡ self.now.watch.clock }
    {
        self.watch.clock
    }

    /// What was typed.
    pub fn keyboard(&self) -> &Keyboard
        ensures { result.now ≡ self.now.keyboard }
    {
        &self.keyboard
    }

    /// The last answered command of the operator's.
    pub fn answered(&self) -> &Option<Deed>
        ensures { result.now ≡ self.now.answered }
    {
        &self.answered
    }

    /// The series that the newest key began, or that it ended.
    pub fn series(&self) -> &Option<Series>
        ensures { result.now ≡ self.now.series }
    {
        &self.series
    }

    /// The code that the next `y` would close the own incident with.
    pub fn closing(&self) -> Option<CloseCode>
        ensures { result ≡ after self.now.keyboard.last code_of }
    {
        code_said(self.keyboard.last)
    }
}
