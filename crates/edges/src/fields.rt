// The log's refusals, at each place where they can stand, and their order within a field.

use std::io;
use std::io::Stdout;

// 20, 21 and 23 at the first field
fn first_cut_or_unknown(out: &mut Stdout) -> io::Result<()> {
    play::play(
        out,
        b"# an empty log

# a start and nothing more: no lines
start 1000

# 20 at the first field: one byte of its head
start 1000
drop 153

# 20 at the first field: two bytes of its head
start 1000
drop 152

# 20 at the first field: a head and no value
start 1000
drop 151

# 20 at the first field: a value one byte short
start 1000
drop 1

# 21 at the first field: tag 0
start 1000
byte 0 0

# 21 at the first field: tag 5
start 1000
byte 0 5

# 21 at the first field: tag 255
start 1000
byte 0 255

",
    )
}

// 22, 23 and 24 at the first field
fn first_refused(out: &mut Stdout) -> io::Result<()> {
    play::play(
        out,
        b"# 22 at the first field: length 150
start 1000
byte 1 150

# 22 at the first field: length 152
start 1000
byte 1 152

# 22 at the first field: length 151 + 256
start 1000
byte 2 1

# 23 at the first field: a call
kernel 1000 -6

# 23 at the first field: an interrupt
interrupt 1000 2 0 0

# 23 at the first field: an exception
exception 1000 24

# 24: value 0 is 2147483648
start 1000 0 2147483648
kernel 1100 -6

# 24: value 31 is 4294967295
start 1000 31 4294967295

# no 24: value 31 is 2147483647
start 1000 31 2147483647
kernel 1100 -6

",
    )
}

// "two more bytes each, after the values"; "the start ends with the number of processors (length 151 ..)"
fn first_layout(out: &mut Stdout) -> io::Result<()> {
    play::play(
        out,
        b"# 22 at the first field: a start of length 132, without ceilings
start 1000
byte 1 132
drop 19
kernel 1100 -6

# 22 at the first field: length 132, though the ceilings are there
start 1000
byte 1 132
kernel 1100 -6

# 22 at the first field: a start of length 150, without its number of processors
start 1000
byte 1 150
drop 1
kernel 1100 -6

# 20 at the first field: no ceilings
start 1000
drop 19

# 20 at the first field: eight ceilings
start 1000
drop 3

# 20 at the first field: no number of processors
start 1000
drop 1

",
    )
}

// "ceiling 0 is at least 1"; "they may not sum above 20", with (v) "may sum to 64": the plain sum
fn first_ceilings(out: &mut Stdout) -> io::Result<()> {
    play::play(
        out,
        b"# 27: ceiling 0 is 0
start 1000
ceilings 0 20
kernel 1100 -6

# 27: the ceilings sum to 65
start 1000
ceilings 1 0 0 0 0 0 0 0 64
kernel 1100 -6

# 27: nine ceilings that sum to 65
start 1000
ceilings 8 7 7 7 7 7 7 7 8
kernel 1100 -6

# 27: customer 0 has 65
start 1000
ceilings 65
kernel 1100 -6

# 27: ceiling 8 is 256
start 1000
ceilings 1 0 0 0 0 0 0 0 256

# 27: a sum that would wrap to 1 at 16 bits
start 1000
ceilings 1 65535 1

# 27: a sum that would wrap to 64
start 1000
ceilings 65535 65535 66

# 27: a sum that would wrap to 64 in a byte
start 1000
ceilings 64 128 128

# no 27: the least ceilings
start 1000
ceilings 1
kernel 1100 -6

# no 27: a sum of 64
start 1000
ceilings 1 0 0 0 0 0 0 0 63
kernel 1100 -6

",
    )
}

// "0 or above 8 is refused with 29"
fn first_processors(out: &mut Stdout) -> io::Result<()> {
    play::play(
        out,
        b"# 29: no processor
start 1000
processors 0
kernel 1100 -6

# 29: nine processors
start 1000
processors 9
kernel 1100 -6

# 29: 255 processors
start 1000
processors 255

# no 29: eight processors
start 1000
processors 8
kernel 1100 -6

",
    )
}

// 20 at a later field
fn later_cut(out: &mut Stdout) -> io::Result<()> {
    play::play(
        out,
        b"# 20 at the last field: one byte of its head
start 1000
kernel 1100 -6
interrupt 1200 2 0 0
drop 10

# 20 at the last field: two bytes of its head
start 1000
kernel 1100 -6
interrupt 1200 2 0 0
drop 9

# 20 at the last field: a head and no value
start 1000
kernel 1100 -6
drop 22

# 20 at the last field: a call one byte short
start 1000
kernel 1100 -6
drop 1

# 20 at the last field: an interrupt one byte short
start 1000
interrupt 1100 2 0 0
interrupt 1200 2 0 0
drop 1

# 20 at the last field: an exception one byte short
start 1000
exception 1100 24
drop 1

",
    )
}

// 21 at a later field
fn later_unknown(out: &mut Stdout) -> io::Result<()> {
    play::play(
        out,
        b"# 21 at a middle field: earlier events stand, later ones are not read
start 1000
kernel 1100 -6
kernel 1200 -6
byte 0 5
kernel 1300 -6

# 21 at the last field: tag 0
start 1000
kernel 1100 -6
exception 1200 24
byte 0 0

",
    )
}

// 22 at a later field
fn later_length(out: &mut Stdout) -> io::Result<()> {
    play::play(
        out,
        b"# 22 at a middle field: a call of 21
start 1000
kernel 1100 -6
byte 1 21
kernel 1200 -6

# 22 at a middle field: an interrupt of 7
start 1000
interrupt 1100 2 0 0
byte 1 7
kernel 1200 -6

# 22 at the last field: an exception of 5
start 1000
kernel 1100 -6
exception 1200 24
byte 1 5

# 22 at the last field: a call of 22 + 256
start 1000
kernel 1100 -6
kernel 1200 -6
byte 2 1

",
    )
}

// 23 at a later field
fn later_start(out: &mut Stdout) -> io::Result<()> {
    play::play(
        out,
        b"# 23 at the second field: a start again
start 1000
start 1000

# 23 at a middle field
start 1000
kernel 1100 -6
start 1200
kernel 1300 -6

# 23 at the last field
start 1000
kernel 1100 -6
kernel 1200 -6
start 1300

",
    )
}

// 25
fn later_mode(out: &mut Stdout) -> io::Result<()> {
    play::play(
        out,
        b"# 25 at the first event: mode 2
start 1000
kernel 1100 -6
byte 8 2

# 25 at a middle field: mode 255
start 1000
kernel 1100 -6
kernel 1200 -6
byte 8 255
kernel 1300 -6

# 25 at the last field: mode 2
start 1000
interrupt 1100 2 0 0
user 1200 1
byte 8 2

",
    )
}

// 20, 21 and 22 before the rest
fn order_of_heads(out: &mut Stdout) -> io::Result<()> {
    play::play(
        out,
        b"# order: a head cut is 20, whatever its tag
start 1000
kernel 1100 -6
byte 0 9
drop 23

# order: an unknown tag is 21, whatever its length
start 1000
kernel 1100 -6
byte 0 9
byte 1 99
drop 22

# order: a wrong length is 22, though the value is cut
start 1000
kernel 1100 -6
byte 1 99

# order: a wrong length is 22, though it is the first field and no start
interrupt 1000 2 0 0
byte 1 7

",
    )
}

// 20 before 23, 23 before 25
fn order_of_values(out: &mut Stdout) -> io::Result<()> {
    play::play(
        out,
        b"# order: a first field that is a cut event is 20
kernel 1000 -6
drop 1

# order: mode 2 in a first field is 23
kernel 1000 -6
byte 8 2

# order: mode 2 in a cut call is 20
start 1000
kernel 1100 -6
byte 8 2
drop 1

",
    )
}

// 20, 22 and 23 before 24; and what stands before a refusal
fn order_of_starts(out: &mut Stdout) -> io::Result<()> {
    play::play(
        out,
        b"# order: a start too large and cut is 20
start 1000 0 4294967295
drop 1

# order: a later start too large is 23
start 1000
start 1000 0 4294967295

# order: a later start cut is 20
start 1000
start 1000
drop 1

# order: a later start of a wrong length is 22
start 1000
start 1000
byte 1 150

# reading goes on after halt
start 1000
kernel 1100 -2 0
kernel 1200 -6
kernel 1300 -6
byte 8 2

# refused events are fields too
start 1000
interrupt 1100 0 0 0
exception 1200 8
exception 1300 24
byte 0 7

",
    )
}

// "else refusal 27 after 24"
fn order_of_ceilings(out: &mut Stdout) -> io::Result<()> {
    play::play(
        out,
        b"# order: a value too large and ceiling 0 at 0: 24
start 1000 31 2147483648
ceilings 0

# order: a value too large and a sum of 65: 24
start 1000 0 4294967295
ceilings 65

# order: bad ceilings in a cut start: 20
start 1000
ceilings 0 21
drop 1

# order: bad ceilings in a start of a wrong length: 22
start 1000
ceilings 0 21
byte 1 150

# order: bad ceilings in a later start: 23
start 1000
kernel 1100 -6
start 1200
ceilings 0 21

",
    )
}

// "29, after 27 wherever that is"
fn order_of_processors(out: &mut Stdout) -> io::Result<()> {
    play::play(
        out,
        b"# order: no processor and ceiling 0 at 0: 27
start 1000
ceilings 0
processors 0

# order: nine processors and a value too large: 24
start 1000 31 2147483648
processors 9

# order: no processor in a later start: 23
start 1000
kernel 1100 -6
start 1200
processors 0

# a processor out of range is no fault of the log: the desk's 7, and the reading goes on
start 1000
on 255
kernel 1100 -6
on 0
kernel 1100 -6

# order: mode 2 at a processor out of range: 25
start 1000
on 1
kernel 1100 -6
byte 8 2

",
    )
}

// 26
fn sizes(out: &mut Stdout) -> io::Result<()> {
    play::play(
        out,
        b"# 65536 bytes are read: field 2 has tag 0
start 1000
kernel 1100 -6
fill 65536

# 65537 bytes: 26, before all else
start 1000
kernel 1100 -6
fill 65537

# 65537 bytes, and no start: 26
fill 65537

",
    )
}

pub(crate) fn all(out: &mut Stdout) -> io::Result<()> {
    first_cut_or_unknown(out)?;
    first_refused(out)?;
    first_layout(out)?;
    first_ceilings(out)?;
    first_processors(out)?;
    later_cut(out)?;
    later_unknown(out)?;
    later_length(out)?;
    later_start(out)?;
    later_mode(out)?;
    order_of_heads(out)?;
    order_of_values(out)?;
    order_of_starts(out)?;
    order_of_ceilings(out)?;
    order_of_processors(out)?;
    sizes(out)
}
