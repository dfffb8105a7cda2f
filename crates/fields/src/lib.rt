// Numbers made of fields, as the answers of the C interface are: definitions, their law, and a refusal as one number.
#![tactic(auto)]

ghost use Rattle.std.specs.Prelude.{◌≡◌, ◌≤◌};
ghost use Rattle.fields.specs.Header.{refusal_number};

// A refusal as one number.
pub fn refusal(number: u32, place: usize) -> u64
    requires { place ≤ 65536 }
    ensures { result ≡ refusal_number number place }
{
    4294967296 + number as u64 * 65536 + place as u64
}
