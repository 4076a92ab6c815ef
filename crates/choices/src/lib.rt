// 02, (vi), alarms first: who is high, and whose turn it is.
#![tactic(auto)]

ghost use Rattle.std.specs.Prelude.{◌≡◌, List, length};
ghost use Rattle.rules.specs.Machine.{Process, high_by, low_turn, counted};
ghost use Rattle.choices.specs.Lines.{of_line};

use rules::{HIGH_PRIORITY, MOST_IN_A_ROW, PRIORITY_UNIT};

// "A2 mod 256 equal to 1 is high, all else low."
pub fn is_high(priority: u32) -> bool
    ensures { result ≡ high_by priority }
{
    priority % PRIORITY_UNIT == HIGH_PRIORITY
}

// 'In 01 "the ready line" becomes the line of the process's own priority': whether that is the high line, or the low.
pub fn is_of(high: bool, priority: u32) -> bool
    ensures { result ≡ of_line high priority }
{
    if high {
        return is_high(priority);
    }
    !is_high(priority)
}

// "First of the high line, or of the low if that is empty, but when four high ones in a row were chosen while a low one
// was waiting, the first low one": by how many are in each line and the count of four, whether it is a low one.
pub fn takes_low(high: usize, low: usize, four: u8) -> bool
    ensures { (hs ls : List Process) → length hs ≡ high → length ls ≡ low → result ≡ low_turn hs ls four }
{
    if low == 0 {
        return false;
    }
    if high == 0 {
        return true;
    }
    MOST_IN_A_ROW <= four
}

// "The count of four returns to nought when a low one is chosen, or at a choice made with the low line empty": the
// count after the choice.
pub fn counted(high: usize, low: usize, four: u8) -> u8
    ensures { (hs ls : List Process) → length hs ≡ high → length ls ≡ low → result ≡ counted hs ls four }
{
    if takes_low(high, low, four) {
        return 0;
    }
    if 0 < low {
        return four + 1;
    }
    0
}
