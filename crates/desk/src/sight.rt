// What a host sees of a machine: each look is one of crates/looks, at its tables.
ghost use Rattle.std.specs.Prelude.{◌≡◌};
ghost use Rattle.rules.specs.Answers.{mask};
ghost use Rattle.rules.specs.Machine.{living, living_of, ceiling};
ghost use Rattle.rules.specs.Rules.{value};
ghost use Rattle.looks.specs.Looks.{seat_of, who_runs, row_at, highs_in_order, lows_in_order, waiting_in_order, sums};
ghost use Rattle.desk.specs.View.{view, Good};

use crate::Machine;
use looks::{Order, Row, Totals};
use rules::Status;

impl Machine {
    // The slot of whoever runs on a processor, or absent.
    pub fn running(self, processor: u8) -> Option<u8>
        requires { Good self }
        ensures { result ≡ who_runs processor (view self) }
    {
        looks::running(self.tables, processor)
    }

    // The mask of the living, "bit n for slot n".
    pub fn alive(self) -> u64
        requires { Good self }
        ensures { result ≡ mask (living (view self)) }
    {
        looks::alive(self.tables)
    }

    // All of the process in a slot: id, parent, customer, priority, handle, time and place; zeros where nobody is
    // there.
    pub fn row(self, slot: u8) -> Row
        requires { Good self }
        ensures { result ≡ row_at slot (view self) }
    {
        looks::row_in(self.tables, slot)
    }

    // The high ready line, first come first.
    pub fn high(self) -> Order
        requires { Good self }
        ensures { result ≡ highs_in_order (view self) }
    {
        looks::high(self.tables)
    }

    // The low ready line, first come first.
    pub fn low(self) -> Order
        requires { Good self }
        ensures { result ≡ lows_in_order (view self) }
    {
        looks::low(self.tables)
    }

    // The count of four: how many high ones in a row were chosen while a low one was waiting.
    pub fn four(self) -> u8
        requires { Good self }
        ensures { result ≡ (view self).four }
    {
        self.tables.four
    }

    // All who wait, in the order in which they came; a row tells the line of each.
    pub fn waiting(self) -> Order
        requires { Good self }
        ensures { result ≡ waiting_in_order (view self) }
    {
        looks::waiting(self.tables)
    }

    // A semaphore's value; 0 where there is no such semaphore.
    pub fn semaphore(self, number: u8) -> u32
        requires { Good self }
        ensures { result ≡ value number (view self) }
    {
        looks::semaphore(self.tables, number)
    }

    // A customer's ceiling; 0 where there is no such customer.
    pub fn ceiling(self, customer: u8) -> u16
        requires { Good self }
        ensures { result ≡ ceiling customer (view self) }
    {
        looks::ceiling(self.tables, customer)
    }

    // A customer's living, running, ready and waiting ones all counted.
    pub fn living(self, customer: u8) -> usize
        requires { Good self }
        ensures { result ≡ living_of customer (view self) }
    {
        looks::living(self.tables, customer)
    }

    // The sum of the accepted gaps, idle time of all processors and ended time.
    pub fn totals(self) -> Totals
        requires { Good self }
        ensures { result ≡ sums (view self) }
    {
        looks::totals_of(self.tables)
    }

    // Whether the machine runs on, "has halted or panicked".
    pub fn status(self) -> Status
        requires { Good self }
        ensures { result ≡ (view self).status }
    {
        looks::status_of(self.tables)
    }

    // A processor's last clock reading, "that of the latest accepted event, or the start"; 0 where there is no such
    // processor.
    pub fn last(self, processor: u8) -> u32
        requires { Good self }
        ensures { result ≡ (seat_of processor (view self)).last }
    {
        looks::last(self.tables, processor)
    }

    // A processor's idle time; 0 where there is no such processor.
    pub fn idle(self, processor: u8) -> u64
        requires { Good self }
        ensures { result ≡ (seat_of processor (view self)).idle }
    {
        looks::idle(self.tables, processor)
    }

    // The id that the next newborn gets: "ids .. are never used again".
    pub fn next_id(self) -> u32
        requires { Good self }
        ensures { result ≡ (view self).next }
    {
        self.tables.next
    }
}
