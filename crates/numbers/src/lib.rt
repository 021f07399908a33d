// Document 01's numbers: which one an outcome has, and each one's sense and status.

#![tactic(auto)]

ghost use Rattle.std.specs.Prelude.{◌≡◌};
ghost use Rattle.rules.specs.Numbers.{number, sense, status};

use rules::Outcome;

const GOOD: u32 = 0x00;

const CHECK_CONDITION: u32 = 0x02;

#[derive(Clone, Copy)]
struct Sense {
    key: u32,
    code: u32,
}

pub fn number_of(outcome: Outcome) -> u32
    ensures { result ≡ number outcome }
{
    match outcome {
        Outcome::Done => 0,
        Outcome::Ended => 15,
        Outcome::Refused(refusal) => refusal as u32,
    }
}

// By number, as the table has them. A number that the table doesn't have has no sense: key 0, code 0000h.
#[tactic(auto, unfolding(rules::specs::Numbers::sense, rules::specs::Tests::first_of))]
fn sense_of(number: u32) -> Sense
    ensures key { result.key ≡ (sense number).key }
    ensures code { result.code ≡ (sense number).code }
{
    let (key, code) = match number {
        1 => (4, 0x4400),
        2 => (5, 0x2000),
        3 => (5, 0x2400),
        4 => (5, 0x2400),
        5 => (5, 0x2400),
        6 => (5, 0x2600),
        7 => (5, 0x2600),
        8 => (5, 0x2600),
        9 => (5, 0x2400),
        10 => (5, 0x2600),
        11 => (5, 0x2400),
        12 => (5, 0x2400),
        13 => (5, 0x2400),
        14 => (7, 0x5507),
        15 => (1, 0x3B17),
        _ => (0, 0x0000),
    };
    Sense { key, code }
}

pub fn sense_key(number: u32) -> u32
    ensures { result ≡ (sense number).key }
{
    sense_of(number).key
}

pub fn sense_code(number: u32) -> u32
    ensures { result ≡ (sense number).code }
{
    sense_of(number).code
}

#[tactic(auto, unfolding(rules::specs::Numbers::status))]
pub fn status_of(number: u32) -> u32
    ensures { result ≡ status number }
{
    if number == 0 { GOOD } else { CHECK_CONDITION }
}
