// The meaning of a number, and the help.
ghost use Rattle.std.specs.Prelude.{◌≡◌, ◌+◌, ◌≤◌, length};
ghost use Rattle.text.specs.Writing.{Wrote};
ghost use Rattle.commands.specs.Meanings.{numbers, position, meaning as Meanings·meaning};
ghost use Rattle.commands.specs.Meanings.{sentence as Meanings·sentence, help as Meanings·help};

use crate::lines::put_line;
use text::put;

const NUMBERS: [u32; 39] = [
    1, 2, 3, 4, 5, 6, 7, 8, 9, 10, 11, 12, 20, 21, 22, 23, 30, 31, 40, 41, 42, 43, 44, 45, 46, 47,
    48, 49, 50, 51, 52, 53, 54, 55, 56, 57, 58, 59, 61,
];

// The line of the page that has the meaning of a number.
fn row(n: u32) -> usize
    ensures { result ≡ position n numbers }
{
    for (i, listed) in NUMBERS.iter().enumerate() {
        if *listed == n {
            return i;
        }
    }
    NUMBERS.len()
}

fn meaning(out: &mut [u8], at: usize, n: u32) -> usize
    requires { at + 4096 ≤ length out.old }
    ensures { Wrote out.old at (Meanings·meaning n) out.new result }
{
    let k = row(n);
    put_line(
        out,
        at,
        b"The system is empty, or its first word is not `system`.\n\
           The system has more than 1,024 words.\n\
           The system has more than 32 handlers, or 64 if it is wide.\n\
           A word of a handler is missing or is another one: `handler`, `permissions` and `guard` come first, in this order.\n\
           The name of the handler is over 31, or 63 if the system is wide.\n\
           An earlier handler has the same name and the same permissions.\n\
           A term has to stand here, and this word is none.\n\
           The system ends where a term is still needed.\n\
           The argument is out of its range.\n\
           The variable has no binder: 0 is the innermost one.\n\
           The term is deeper than 64.\n\
           The system goes on after its last handler.\n\
           A set has a permission above 23.\n\
           The slice for the estimate is too short.\n\
           The work slice is too short.\n\
           The least estimate has more facts than the ceiling.\n\
           The bytes are no whole words, or too few.\n\
           There are more bytes than a system may have here.\n\
           The line is not how a word is written, or does not start with two spaces for each depth.\n\
           The listing has more than 65,536 bytes.\n\
           The output has no room for all of it.\n\
           The bytes are no JSON text, or more than 16,384, or nested deeper than 16, or the value is not an object.\n\
           A key of the top object stands there twice.\n\
           `manifest_version` is missing, or is neither 2 nor 3.\n\
           A list that is read is not an array of strings.\n\
           No handler of the two systems has this name and these permissions.\n\
           The joined system has more than 32 handlers.\n\
           The joined system has more than 1,024 words.\n\
           The output has no room for the joined system.\n\
           The slice for positions is shorter than the number of handlers.\n\
           The estimate has more or fewer words than the system asks for.\n\
           The estimate has a bit set that stands for nothing.\n\
           The estimate breaks a rule of this word.\n\
           A narrow system has no room for more than 32 handlers.\n\
           A narrow system has no name over 31.\n\
           The output has no room for the converted system.\n\
           The stream ends inside a system.\n\
           A system of a stream has more than 256 words.\n\
           The stream goes on after 10,000 systems.\n\
           No refusal has this number.\n",
        k,
    )
}

// The meaning of a number of either system.
pub fn sentence(out: &mut [u8], at: usize, n: u32) -> usize
    requires { at + 8192 ≤ length out.old }
    ensures { Wrote out.old at (Meanings·sentence n) out.new result }
{
    if 100 < n {
        let next = put(out, at, b"In the second system: ");
        return meaning(out, next, n - 100);
    }
    meaning(out, at, n)
}

pub fn help(out: &mut [u8]) -> usize
    requires { 4096 ≤ length out.old }
    ensures { Wrote out.old 0 Meanings·help out.new result }
{
    put(
        out,
        0,
        b"wiphosega text             words in, their listing out\n\
           wiphosega words            a listing in, its words out\n\
           wiphosega leak RHO BOUND CEILING   a listing in, its leak out; sets in hexadecimal digits, BOUND 0 if left out, CEILING on facts\n\
           wiphosega deliveries       a listing in, for each send and each handler whether it is delivered, and if not, why\n\
           wiphosega senders RHO      a listing in, for each handler who may have sent to it: handlers by position, opponent\n\
           wiphosega order RHO        a listing in, an order of its live handlers, each after all that may send to it, or else a loop: by position\n\
           wiphosega estimate RHO     a listing in, the words of its least estimate out\n\
           wiphosega audit RHO        words in: how many the system has, the system, an estimate; whether the estimate obeys every rule out\n\
           wiphosega check            a listing in, what is wrong with it out\n\
           wiphosega join             two listings in, the second laid over the first; the joined listing out\n\
           wiphosega block NAME SET   the same in, that handler's lines out, the second listing's if it has it\n\
           wiphosega manifest         a manifest in, its version and permission set out\n\
           wiphosega pack RHO         a listing in, a system of the stream of a class out; RHO in hexadecimal digits\n\
           wiphosega widen            the words of a narrow system in, those of the wide one out\n\
           wiphosega narrow           the words of a wide system in, those of the narrow one out\n\
           wiphosega explain NUMBER   the meaning of a refusal's number\n",
    )
}
