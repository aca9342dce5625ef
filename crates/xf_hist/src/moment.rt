//! A moment of a history: the machine there, and how many records the receipts before it removed.
ghost use Rattle.std.specs.Prelude.{◌≡◌, ◌↔◌, ◌<◌, ◌+◌, ◌^◌, true, false, length, Ok, IfOk, IsTrue, reverse};
ghost use Rattle.xf_hist.specs.Moments.{at, IsNext, IsEarly};
ghost use Rattle.xf_plain.specs.Growth.{GrowsLittle};
ghost use Rattle.xf_types.specs.History.{is_exception, MayReply};
ghost use Rattle.xf_types.specs.Moves.{is_moving};
ghost use Rattle.xf_types.specs.Steps.{step};

use crate::again::is_again;
use xf_plain::Plain;
use xf_types::{Call, NoMemory, Receipt, Reply, same_reply};

/// The machine at a moment, and how many records were removed before it.
#[derive(Drop)]
pub struct Moment {
    pub machine: Plain,
    pub policies_removed: u128,
    pub states_removed: u128,
}

impl Moment {
    /// Whether the reply may stand here. The moment then is one receipt later, and spoilt where it may not.
    pub fn goes_on(&mut self, past: &[Receipt], receipt: &Receipt) -> Result<bool, NoMemory>
        requires few { length past.now < 2 ^ 62 }
        requires early { IsEarly self.old (length past.now) }
        ensures legal { IfOk result
            (λ b. IsTrue b ↔ MayReply (at self.old (reverse past.now)) receipt.now receipt.now.reply) }
        ensures next { result ≡ Ok true → IsNext self.old (reverse past.now) receipt.now self.new }
        ensures early { result ≡ Ok true → IsEarly self.new (length past.now + 1) }
    {
        if receipt.reply.is_exception() {
            self.allows(past, receipt)
        } else if receipt.reply.is_moving() {
            self.moves(past, receipt)
        } else {
            self.stays(past, receipt)
        }
    }

    /// Whether a reply that is none of the machine's may stand here.
    fn allows(&self, past: &[Receipt], receipt: &Receipt) -> Result<bool, NoMemory>
        requires outside { is_exception receipt.now.reply ≡ true }
        requires numbers { self.now.machine.shown.next_number < 2 ^ 63 }
        requires sids { self.now.machine.shown.next_sid < 2 ^ 63 }
        ensures { IfOk result (λ b. IsTrue b ↔ MayReply (at self.now (reverse past.now)) receipt.now receipt.now.reply) }
    {
        match &receipt.reply {
            Reply::Again(tries) => Ok(is_again(past, receipt, *tries)),
            Reply::Full { live, waiting } => self.is_full(receipt, *live, *waiting),
            _ => Ok(true),
        }
    }

    /// Whether the reply, which moves, is the machine's. What is gone of the machine before it is counted.
    fn moves(&mut self, past: &[Receipt], receipt: &Receipt) -> Result<bool, NoMemory>
        requires inside { is_exception receipt.now.reply ≡ false }
        requires few { length past.now < 2 ^ 62 }
        requires early { IsEarly self.old (length past.now) }
        ensures legal { IfOk result
            (λ b. IsTrue b ↔ (receipt.now.reply ≡ (step self.old.machine receipt.now.call).reply)) }
        ensures next { result ≡ Ok true → IsNext self.old (reverse past.now) receipt.now self.new }
        ensures early { result ≡ Ok true → IsEarly self.new (length past.now + 1) }
    {
        let mut next = self.machine.copy()?;
        if !answers(&mut next, &receipt.call, &receipt.reply)? {
            return Ok(false);
        }
        self.policies_removed += u128::from(self.machine.policies_gone(&next));
        self.states_removed += u128::from(self.machine.states_gone(&next));
        self.machine = next;
        Ok(true)
    }

    /// Whether the reply, which doesn't move and so removes nothing, is the machine's.
    fn stays(&mut self, past: &[Receipt], receipt: &Receipt) -> Result<bool, NoMemory>
        requires inside { is_exception receipt.now.reply ≡ false }
        requires still { is_moving receipt.now.reply ≡ false }
        requires few { length past.now < 2 ^ 62 }
        requires early { IsEarly self.old (length past.now) }
        ensures legal { IfOk result
            (λ b. IsTrue b ↔ (receipt.now.reply ≡ (step self.old.machine receipt.now.call).reply)) }
        ensures next { result ≡ Ok true → IsNext self.old (reverse past.now) receipt.now self.new }
        ensures early { result ≡ Ok true → IsEarly self.new (length past.now + 1) }
    {
        answers(&mut self.machine, &receipt.call, &receipt.reply)
    }
}

/// Whether the machine gives this answer to the call. It is one step later.
pub fn answers(machine: &mut Plain, call: &Call, reply: &Reply) -> Result<bool, NoMemory>
    requires numbers { machine.old.shown.next_number < 2 ^ 63 }
    requires sids { machine.old.shown.next_sid < 2 ^ 63 }
    ensures answer { IfOk result (λ b. IsTrue b ↔ (reply.now ≡ (step machine.old call.now).reply)) }
    ensures machine { IfOk result (λ b. machine.new ≡ (step machine.old call.now).machine) }
    ensures grows { GrowsLittle machine.old.shown machine.new.shown }
{
    let given = machine.step(call);
    if same_reply(&given, &Reply::NoMemory) {
        return Err(NoMemory);
    }
    Ok(same_reply(reply, &given))
}
