// Works switches of every kind by a script and prints what each call left, to be held against the reference
// program. Standard input has 16-byte entries, numbers high byte first: the operation (4), an argument (8),
// another (4).
#![tactic(auto)]

use base::Refusal;
use std::alloc::AllocError;
use std::io::Write;
use suite_input::{digit, read_all, word};
use switches::{CLOSED_WORD, DirectContact, DriveWord, Rest, RestTime, Switch};

const ENTRY_LEN: usize = 16;

fn main(rt: HostRuntime) -> anyhow::Result<()> {
    let input = read_all(rt.alloc(), rt.stdin())?;
    let mut text = String::new(rt.alloc());
    let mut switch = Worked::Nothing;
    for entry in input.as_slice().chunks(ENTRY_LEN).map(Entry::read) {
        if !entry.is_call() {
            switch = made(&entry);
        }
        put_entry(&mut switch, &entry, &mut text)?;
    }
    rt.stdout().write_all(text.as_bytes())?;
    Ok(())
}

// A new switch, or a call of the last one.
#[derive(Clone, Copy)]
enum Operation {
    Nothing = 0,
    NewContact = 1,
    NewDrive = 2,
    NewRest = 3,
    NewRests = 4,
    Tick = 5,
    Close = 6,
    Open = 7,
}

// Numbers above 7 open, too.
impl From<u32> for Operation {
    fn from(number: u32) -> Operation {
        match number {
            0 => Operation::Nothing,
            1 => Operation::NewContact,
            2 => Operation::NewDrive,
            3 => Operation::NewRest,
            4 => Operation::NewRests,
            5 => Operation::Tick,
            6 => Operation::Close,
            _ => Operation::Open,
        }
    }
}

// An operation with its long and its short argument.
#[derive(Clone, Copy)]
struct Entry {
    operation: Operation,
    long: u64,
    short: u32,
}

impl Entry {
    fn read(bytes: &[u8]) -> Entry {
        Entry {
            operation: Operation::from(word(bytes, 0)),
            long: u64::from(word(bytes, 4)) << 32 | u64::from(word(bytes, 8)),
            short: word(bytes, 12),
        }
    }

    fn is_call(&self) -> bool {
        matches!(
            self.operation,
            Operation::Tick | Operation::Close | Operation::Open
        )
    }
}

// What the calls go to: the switch that was made last, if there is one. Each entry is worked as it is read: the entries
// of a switch in a `Vec` would be the input again, and larger.
#[derive(Drop)]
enum Worked {
    Nothing,
    Refused(Refusal),
    Contact(DirectContact),
    Drive(DriveWord),
    Rest(Rest<DirectContact>),
    Rests(Rest<Rest<DriveWord>>),
}

fn made(new: &Entry) -> Worked {
    match new.operation {
        Operation::NewContact => Worked::Contact(DirectContact::new(new.long == 1)),
        Operation::NewDrive => Worked::Drive(DriveWord::new((new.long % 65_536) as u16)),
        Operation::NewRest => match rest(new) {
            Ok(switch) => Worked::Rest(switch),
            Err(refusal) => Worked::Refused(refusal),
        },
        Operation::NewRests => match rests(new) {
            Ok(switch) => Worked::Rests(switch),
            Err(refusal) => Worked::Refused(refusal),
        },
        _ => Worked::Nothing,
    }
}

fn rest(new: &Entry) -> Result<Rest<DirectContact>, Refusal> {
    let time = RestTime::new(new.long)?;
    Ok(Rest::new(DirectContact::new(new.short == 1), time))
}

fn rests(new: &Entry) -> Result<Rest<Rest<DriveWord>>, Refusal> {
    let lower = RestTime::new(u64::from(new.short))?;
    let upper = RestTime::new(new.long)?;
    Ok(Rest::new(Rest::new(DriveWord::new(CLOSED_WORD), lower), upper))
}

// The line of an entry: what it made or called, or that there was nothing to call.
fn put_entry(switch: &mut Worked, entry: &Entry, text: &mut String) -> Result<(), AllocError> {
    match switch {
        Worked::Nothing => text.push_str("none\n"),
        Worked::Refused(refusal) => put_refused(*refusal, entry, text),
        Worked::Contact(switch) => work(switch, entry, text),
        Worked::Drive(switch) => work(switch, entry, text),
        Worked::Rest(switch) => work(switch, entry, text),
        Worked::Rests(switch) => work(switch, entry, text),
    }
}

// One that was refused cannot be called.
fn put_refused(refusal: Refusal, entry: &Entry, text: &mut String) -> Result<(), AllocError> {
    if entry.is_call() {
        return text.push_str("none\n");
    }
    let number = refusal.number();
    writeln!(text, "refused {number}")
}

fn work<S: Switch>(switch: &mut S, entry: &Entry, text: &mut String) -> Result<(), AllocError> {
    if entry.is_call() {
        call(switch, entry, text)?;
    } else {
        let number = entry.operation as u8;
        write!(text, "new {number}")?;
    }
    put_state(switch, text)
}

fn call<S: Switch>(switch: &mut S, entry: &Entry, text: &mut String) -> Result<(), AllocError> {
    match entry.operation {
        Operation::Tick => {
            let time = entry.long;
            switch.tick(time);
            write!(text, "tick {time}")?;
        }
        Operation::Close => match switch.close() {
            Ok(()) => text.push_str("close closed")?,
            Err(_) => text.push_str("close held")?,
        },
        _ => {
            switch.open();
            text.push_str("open")?;
        }
    }
    Ok(())
}

// Contact and freedom, to the line's end.
fn put_state<S: Switch>(switch: &S, text: &mut String) -> Result<(), AllocError> {
    let contact = digit(switch.is_closed());
    let freedom = digit(switch.is_free());
    writeln!(text, " {contact} {freedom}")
}
