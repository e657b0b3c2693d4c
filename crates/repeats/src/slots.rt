// The rows that are kept, each entered in a slot and linked to the row that was there before.
ghost use Rattle.std.specs.Prelude.{◌≡◌};
ghost use Rattle.repeats.specs.Inner.Slots.{nothing_kept, FindAsks, Finds, EnterAsks, entered_in, KeepAsks, KeptOnce};

use super::SLOTS;
use super::same::same_rule;
use rules::RuleNo;

// No heap: rows are linked by numbers, in arrays of fixed size. A slot and a link hold the number of a row, 1 for the first, or 0.
#[derive(Drop)]
pub struct Kept {
    pub slots: [u16; SLOTS],
    pub links: [u16; RuleNo::LAST],
}

impl Kept {
    #[tactic(auto, unfolding(crate::specs::Inner::Slots::nothing_kept, crate::specs::Inner::Marks::slot_count, rules::specs::Limits::rules_most))]
    pub fn new() -> Kept
        ensures { result ≡ nothing_kept }
    {
        Kept {
            slots: [0; SLOTS],
            links: [0; RuleNo::LAST],
        }
    }

    // The row before k, among those met from the row of this number on, that has row k's rule.
    fn find(&self, code: &[u32], k: u32, from: u16) -> Option<u32>
        requires { FindAsks code.now self.now k from }
        ensures { Finds code.now self.now k from result }
    {
        let mut number = from;
        // kept as a while: it follows links and counts no index
        while number != 0 {
            let row = u32::from(number - 1);
            if same_rule(code, row, k) {
                return Some(row);
            }
            number = self.links[row as usize];
        }
        None
    }

    // Row k, entered in a slot.
    #[tactic(auto, unfolding(crate::specs::Inner::Marks::slot_count, rules::specs::Limits::rules_most))]
    fn enter(&mut self, slot: usize, k: u32)
        requires { EnterAsks slot k }
        ensures { self.new ≡ entered_in self.old slot k }
    {
        self.links[k as usize] = self.slots[slot];
        self.slots[slot] = (k + 1) as u16;
    }

    // The row that has row k's rule, of this mark: one before it, or row k itself, which is then entered. There always is one, so the answer
    // is no Option (`KeptOnce`).
    pub fn keep(&mut self, code: &[u32], k: u32, mark: usize) -> u32
        requires { KeepAsks code.now self.old k mark }
        ensures { KeptOnce code.now k self.old self.new result }
    {
        let slot = mark % SLOTS;
        if let Some(row) = self.find(code, k, self.slots[slot]) {
            return row;
        }
        self.enter(slot, k);
        k
    }
}
