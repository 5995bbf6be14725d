//! Single tokens of a text.

ghost use Rattle.std.specs.Prelude.{◌≡◌, true, false, IfOk, IfErr, OnOk, MatchOption, Some, ◌≤◌, ◌<◌, length, List, ℕ};
ghost use Rattle.us_tokens.specs.Text.{left_of};
ghost use Rattle.us_decl.specs.Token.{Fixed, Name as NameToken, Number as NumberToken};
ghost use Rattle.us_decl.specs.Words.{is_name};
ghost use Rattle.us_decl.specs.Names.{number_of};
ghost use Rattle.us_decl.specs.Limits.{fits_number};
ghost use Rattle.us_parse.specs.Reads.{text_of, refused_at, Took, is_fixed, lead, is_sum, sum_token, is_product, divide_token, has_name, name_fault, has_number, number_fault, has_divisor, divisor_fault, Missed, has_variable, Knows};

use crate::stop::Stop;
use us_decl::{Lexeme, Mark, Name, Names, is_same_name, name_of};
use us_tokens::{Cursor, Next};

/// The greatest number.
const MOST: u32 = 2147483647;

/// The fault where the token here can't stand.
pub fn refusal(cursor: &Cursor<'_, Lexeme>) -> Stop
    ensures { result ≡ refused_at (text_of cursor.now) }
{
    match cursor.peek() {
        Next::Bad => Stop::Token(cursor.left()),
        _ => Stop::Form(cursor.left()),
    }
}

/// The fault where the token here is beyond a limit.
pub fn excess(cursor: &Cursor<'_, Lexeme>) -> Stop
    ensures { result ≡ Stop.TooBig (left_of (text_of cursor.now)) }
{
    Stop::TooBig(cursor.left())
}

/// Whether this word or symbol stands here.
pub fn stands(cursor: &Cursor<'_, Lexeme>, mark: Mark) -> bool
    ensures { result ≡ is_fixed mark (lead (text_of cursor.now)) }
{
    match cursor.peek() {
        Next::Token(Lexeme::Fixed(found)) => found == mark,
        _ => false,
    }
}

/// Goes on if this word or symbol stands here.
pub fn take(cursor: &mut Cursor<'_, Lexeme>, mark: Mark) -> bool
    ensures taken { result ≡ true → Took (text_of cursor.old) (text_of cursor.new) (Fixed mark) }
    ensures other { result ≡ false → is_fixed mark (lead (text_of cursor.old)) ≡ false }
    ensures same { result ≡ false → text_of cursor.new ≡ text_of cursor.old }
{
    match cursor.peek() {
        Next::Token(Lexeme::Fixed(found)) if found == mark => {
            cursor.advance();
            true
        }
        _ => false,
    }
}

/// Goes on behind this word or symbol, which has to stand here.
pub fn expect(cursor: &mut Cursor<'_, Lexeme>, mark: Mark) -> Result<(), Stop>
    ensures ok { OnOk result (Took (text_of cursor.old) (text_of cursor.new) (Fixed mark)) }
    ensures err { IfErr result (λ e. (e ≡ refused_at (text_of cursor.old)) × (is_fixed mark (lead (text_of cursor.old)) ≡ false)) }
{
    if take(cursor, mark) {
        Ok(())
    } else {
        Err(refusal(cursor))
    }
}

/// Whether a sum or a difference goes on here.
pub fn sum_sign(cursor: &Cursor<'_, Lexeme>) -> Option<bool>
    ensures { MatchOption result (is_sum (lead (text_of cursor.now)) ≡ false) (λ plus. lead (text_of cursor.now) ≡ Some (sum_token plus)) }
{
    match cursor.peek() {
        Next::Token(Lexeme::Fixed(Mark::Plus)) => Some(true),
        Next::Token(Lexeme::Fixed(Mark::Minus)) => Some(false),
        _ => None,
    }
}

/// Whether a quotient or a remainder goes on here.
pub fn product_sign(cursor: &Cursor<'_, Lexeme>) -> Option<bool>
    ensures { MatchOption result (is_product (lead (text_of cursor.now)) ≡ false) (λ over. lead (text_of cursor.now) ≡ Some (divide_token over)) }
{
    match cursor.peek() {
        Next::Token(Lexeme::Fixed(Mark::Slash)) => Some(true),
        Next::Token(Lexeme::Fixed(Mark::Percent)) => Some(false),
        _ => None,
    }
}

/// A number within its limit, which has to stand here.
pub fn number(cursor: &mut Cursor<'_, Lexeme>) -> Result<u32, Stop>
    ensures ok { IfOk result (λ k. Took (text_of cursor.old) (text_of cursor.new) (NumberToken k) × (fits_number k ≡ true)) }
    ensures err { IfErr result (λ e. (e ≡ number_fault (text_of cursor.old)) × (has_number (text_of cursor.old) ≡ false)) }
{
    match cursor.peek() {
        Next::Token(Lexeme::Number(k)) if k <= MOST => {
            cursor.advance();
            Ok(k)
        }
        Next::Token(Lexeme::Number(_)) => Err(excess(cursor)),
        _ => Err(refusal(cursor)),
    }
}

/// The number behind `/` or `%`, which has to stand here.
pub fn divisor(cursor: &mut Cursor<'_, Lexeme>) -> Result<u32, Stop>
    ensures ok { IfOk result (λ k. Took (text_of cursor.old) (text_of cursor.new) (NumberToken k) × (fits_number k ≡ true) × (0 < k)) }
    ensures err { IfErr result (λ e. (e ≡ divisor_fault (text_of cursor.old)) × (has_divisor (text_of cursor.old) ≡ false)) }
{
    match cursor.peek() {
        Next::Token(Lexeme::Number(k)) if k > MOST => Err(excess(cursor)),
        Next::Token(Lexeme::Number(k)) if k > 0 => {
            cursor.advance();
            Ok(k)
        }
        _ => Err(refusal(cursor)),
    }
}

/// A name within its limits, which has to stand here.
pub fn name(cursor: &mut Cursor<'_, Lexeme>) -> Result<Name, Stop>
    ensures ok { IfOk result (λ n. Took (text_of cursor.old) (text_of cursor.new) (NameToken n) × (is_name n ≡ true)) }
    ensures err { IfErr result (λ e. (e ≡ name_fault (text_of cursor.old)) × (has_name (text_of cursor.old) ≡ false)) }
{
    match cursor.peek() {
        Next::Token(Lexeme::Name) => {
            let Some(name) = name_of(cursor.text()) else {
                return Err(excess(cursor));
            };
            cursor.advance();
            Ok(name)
        }
        _ => Err(refusal(cursor)),
    }
}

/// The number of a name among others: its place, or how many there are.
pub fn number_of(name: &Name, names: &[Name]) -> usize
    ensures value { result ≡ number_of name.now names.now }
    ensures within { result ≤ length names.now }
{
    let bytes = name.as_str().as_bytes();
    names
        .iter()
        .take_while(|other| !is_same_name(bytes, other.as_str().as_bytes()))
        .count()
}

/// A variable, which has to stand here: its number among the names, which it joins if it is new.
pub fn variable(cursor: &mut Cursor<'_, Lexeme>, names: &mut Names) -> Result<u32, Stop>
    requires { length names.old ≤ 32 }
    ensures ok { IfOk result (λ v. Knows (text_of cursor.old) (text_of cursor.new) names.old names.new v) }
    ensures err { IfErr result (λ e. Missed (name_fault (text_of cursor.old)) (has_variable names.old (text_of cursor.old)) e) }
{
    let beyond = excess(cursor);
    let name = name(cursor)?;
    let number = number_of(&name, names.as_slice());
    if number == names.len() {
        if number >= 32 {
            return Err(beyond);
        }
        names.push(name)?;
    }
    Ok(number as u32)
}
