ghost use Rattle.std.specs.Prelude.{◌≡◌, ℕ, Bool, true, false, cond};
ghost use Rattle.switches.specs.Model.{Model, asked_to_close, answer};

use crate::held::Held;

// A switch means a contact, closed or open, and whether it is free to be closed.
//
// An implementer shows five points:
// 1. `tick` tells any 64-bit time; state and time alone fix the state after it (`ticked`), and it
//    never closes an open contact;
// 2. `close` on a free switch leaves the contact closed; otherwise it answers the error `Held` and changes nothing;
// 3. `open` always leaves the contact open;
// 4. `is_closed` and `is_free` answer what the state means, and change nothing;
// 5. a closed contact is free.
// A caller may rely on these, and on nothing else.
pub trait Switch {
    ghost model: { Model Self };

    fn tick(&mut self, time: u64)
        ensures { self.new ≡ model.ticked self.old time };

    fn close(&mut self) -> Result<(), Held>
        ensures value { result ≡ answer model self.old }
        ensures after { self.new ≡ asked_to_close model self.old };

    fn open(&mut self)
        ensures { self.new ≡ model.opened self.old };

    fn is_closed(&self) -> bool
        ensures { result ≡ model.contact self.now };

    fn is_free(&self) -> bool
        ensures { result ≡ model.free self.now };

    ghost tick_never_closes: { (s : Self) (t : ℕ) → model.contact s ≡ false → model.contact (model.ticked s t) ≡ false };

    ghost free_closes: { (s : Self) → model.free s ≡ true → model.contact (model.closed s) ≡ true };

    ghost open_opens: { (s : Self) → model.contact (model.opened s) ≡ false };

    ghost closed_is_free: { (s : Self) → model.contact s ≡ true → model.free s ≡ true };
}
