// Digits from a place of a line on.
ghost use Rattle.std.specs.Prelude.{true, ◌&&◌, cond, not, ◌≡◌, ◌+◌, ◌-◌, ◌*◌, ◌^◌, ◌<◌, ◌≤◌, eqb, ltb, drop, length, MatchResult, ⊤};
ghost use Rattle.modes.specs.Form.{digit};
ghost use Rattle.modes.specs.Scan.{DecimalsPass, DecimalsStop, Passes, Stops, decimal_runner, digit_runner, number_from, read_token, state};

// What digits spell, and where they end.
#[derive(Clone, Copy)]
pub struct Number {
    pub end: usize,
    pub value: u32,
}

// Where digits end, how many more might have come, and what they spell.
#[derive(Clone, Copy)]
pub struct Spelled {
    pub end: usize,
    pub left: u32,
    pub value: u32,
}

// It is a digit, and one may come.
#[tactic(auto, unfolding(crate::specs::Form::digit))]
fn takes_digit(byte: u8, left: u32) -> bool
    ensures { result ≡ (digit byte && ltb 0 left) }
{
    byte.is_ascii_digit() && left > 0
}

// A digit behind a number that was spelled.
fn with_digit(value: u32, byte: u8) -> u32
    requires { value < 1000000 }
    ensures { result ≡ 10 * value + (byte - 0x30) }
{
    10 * value + u32::from(byte.saturating_sub(b'0'))
}

// None may come behind a zero that leads.
fn left_behind(value: u32, left: u32) -> u32
    ensures { result ≡ cond (eqb value 0) 0 (left - 1) }
{
    if value == 0 {
        0
    } else {
        left.saturating_sub(1)
    }
}

// A number of so many digits at most, with no zero that leads, as far as it is there.
fn digits(line: &[u8], at: usize, most: u32) -> Spelled
    requires at_in_bounds { at ≤ length line.now }
    requires most_bound { most ≤ 5 }
    ensures value { result ≡ number_from digit_runner line.now at (state most 0) }
    ensures end_in_bounds { result.end ≤ length line.now }
    ensures value_bound { result.value < 10 ^ most }
{
    let mut end = at;
    let mut left = most;
    let mut value = 0;
    for byte in &line[at..] {
        if !takes_digit(*byte, left) {
            break;
        }
        value = with_digit(value, *byte);
        left = left_behind(value, left);
        end += 1;
    }
    Spelled { end, left, value }
}

// A number of so many digits at most, with no zero that leads; or the place where its first digit is missing.
pub fn numeral(line: &[u8], at: usize, most: u32) -> Result<Number, usize>
    requires at_in_bounds { at ≤ length line.now }
    requires most_bound { most ≤ 5 }
    ensures value { MatchResult result (λ n. Passes (read_token most) line.now at n.value n.end) (λ place. Stops (read_token most) line.now at place) }
    ensures value_bound { MatchResult result (λ n. n.value < 10 ^ most) (λ place. ⊤) }
{
    let read = digits(line, at, most);
    if read.left >= most {
        return Err(read.end);
    }
    Ok(Number {
        end: read.end,
        value: read.value,
    })
}

// It is a digit, one may come, and it isn't the last that leaves the clock 0.
fn takes_decimal(byte: u8, left: u32, value: u32) -> bool
    requires { value < 1000000 }
    ensures { result ≡ ((digit byte && ltb 0 left) && not (eqb left 1 && eqb (10 * value + (byte - 0x30)) 0)) }
{
    takes_digit(byte, left) && !(left == 1 && with_digit(value, byte) == 0)
}

// Three decimals at most, behind so many MHz, as far as they are there.
fn decimals(line: &[u8], at: usize, whole: u32) -> Spelled
    requires at_in_bounds { at ≤ length line.now }
    requires whole_bound { whole < 1000 }
    ensures value { result ≡ number_from decimal_runner line.now at (state 3 whole) }
    ensures end_in_bounds { result.end ≤ length line.now }
    ensures left_bound { (result.left ≤ 3) × (result.value < 1000 * 10 ^ (3 - result.left)) }
{
    let mut end = at;
    let mut left = 3;
    let mut value = whole;
    for byte in &line[at..] {
        if !takes_decimal(*byte, left, value) {
            break;
        }
        value = with_digit(value, *byte);
        left -= 1;
        end += 1;
    }
    Spelled { end, left, value }
}

// The kHz that three decimals at most, behind so many MHz, make; or the place where one is missing.
pub fn kilohertz(line: &[u8], at: usize, whole: u32) -> Result<Number, usize>
    requires at_in_bounds { at ≤ length line.now }
    requires whole_bound { whole < 1000 }
    ensures { MatchResult result (λ n. DecimalsPass whole line.now at n.value n.end) (λ place. DecimalsStop whole line.now at place) }
{
    let read = decimals(line, at, whole);
    if read.left >= 3 || read.value == 0 {
        return Err(read.end);
    }
    Ok(Number {
        end: read.end,
        value: read.value * 10u32.pow(read.left),
    })
}
