//! A text that is read from its front.
ghost use Rattle.std.specs.Prelude.{◌≡◌, ℕ, ◌+◌, ◌-◌, ◌*◌, ◌<◌, ◌≤◌, ◌==◌, [], ◌∷◌, true, false};
ghost use Rattle.std.specs.Prelude.{MatchBool, MatchOption, length, encode_utf8_all};
ghost use Rattle.std.specs.Str.{chars};
ghost use Rattle.expr_parser.specs.Grammar.{is_part, is_white};
ghost use Rattle.expr_parser.specs.Descent.{Fails, lead_of, rest_of};
ghost use Rattle.expr_parser.specs.Machine.{goes_on};
ghost use Rattle.expr_parser.specs.declared.reader.TheConstants.{GREATEST_WIDTH};

use std::marker::Model;

const LEAST_WIDTH: u32 = 1;

const GREATEST_WIDTH: u32 = 128;

/// What is left of a text, seen as its characters.
#[derive(Drop)]
pub(crate) struct Reader<'t> {
    rest: &'t str,
}

impl<'t> Model for Reader<'t> {
    ghost use Rattle.std.specs.Prelude.{List, ℕ};
    ghost use Rattle.std.specs.Str.{chars};

    ghost Value = { List ℕ };

    ghost view = { λ r. chars r.rest.now };
}

impl<'t> Reader<'t> {
    pub fn new(text: &'t str) -> Reader<'t>
        ensures { result ≡ chars text.now }
    {
        Reader { rest: text }
    }

    /// How many bytes are left.
    pub fn left(&self) -> usize
        ensures { result ≡ length (encode_utf8_all self.now) }
    {
        self.rest.as_bytes().len()
    }

    pub fn is_at_end(&self) -> bool
        ensures { MatchBool result (self.now ≡ []) (0 < length self.now) }
    {
        first_of(self.rest).is_none()
    }

    pub fn pass_white(&mut self)
        ensures { self.new ≡ rest_of is_white self.old }
    {
        self.rest = after_white(self.rest);
    }

    /// Passes the mark, if the text begins with it.
    pub fn takes(&mut self, mark: char) -> bool
        ensures { MatchBool result (self.old ≡ mark ∷ self.new)
            ((self.new ≡ self.old) × Fails (λ c. c == mark) self.old) }
    {
        match first_of(self.rest) {
            Some((first, rest)) => {
                if first != mark {
                    return false;
                }
                self.rest = rest;
                true
            }
            None => false,
        }
    }

    /// Passes the characters of a part, and lends them. There may be none.
    pub fn part(&mut self) -> &'t str
        ensures value { result.now ≡ encode_utf8_all (lead_of is_part self.old) }
        ensures rest { self.new ≡ rest_of is_part self.old }
    {
        let rest = after_part(self.rest);
        let part = front(self.rest, rest);
        self.rest = rest;
        part
    }

    /// Passes one more digit of a number from 1 to 128, if one follows, and gives the number with
    /// it.
    pub fn digit_behind(&mut self, number: u8) -> Option<u8>
        requires { number ≤ GREATEST_WIDTH }
        ensures { MatchOption result
            ((self.new ≡ self.old) × Fails (goes_on number) self.old)
            (λ longer. (c : ℕ) × (self.old ≡ c ∷ self.new) × (goes_on number c ≡ true)
            × (longer ≡ number * 10 + (c - 48))) }
    {
        match first_of(self.rest) {
            Some((first, rest)) => match number_with(number, first) {
                Some(longer) => {
                    self.rest = rest;
                    Some(longer)
                }
                None => None,
            },
            None => None,
        }
    }
}

// The number with one more digit after it, where that is from 1 to 128.
fn number_with(number: u8, digit: char) -> Option<u8>
    requires { number ≤ GREATEST_WIDTH }
    ensures { MatchOption result
        (goes_on number digit ≡ false)
        (λ longer. (goes_on number digit ≡ true) × (longer ≡ number * 10 + (digit - 48))) }
{
    if digit < '0' || digit > '9' {
        return None;
    }
    let longer = u32::from(number) * 10 + (digit as u32 - 48);
    if longer < LEAST_WIDTH || longer > GREATEST_WIDTH {
        return None;
    }
    Some(longer as u8)
}

// The first character and what follows it.
fn first_of(text: &str) -> Option<(char, &str)>
    ensures { MatchOption result
        (chars text.now ≡ [])
        (λ r. (chars text.now ≡ r.0 ∷ chars r.1.now) × (length r.1.now < length text.now)) }
{
    let mut chars = text.chars();
    match chars.next() {
        Some(first) => Some((first, chars.as_str())),
        None => None,
    }
}

#[tactic(auto, unfolding(crate::specs::Grammar::is_white))]
fn is_white_space(c: char) -> bool
    ensures { result ≡ is_white c }
{
    c.is_whitespace()
}

#[tactic(auto, unfolding(crate::specs::Grammar::is_part))]
fn is_part_character(c: char) -> bool
    ensures { result ≡ is_part c }
{
    let other = is_white_space(c) || c == '.' || c == ',' || c == '(' || c == ')';
    !other
}

fn after_white(text: &str) -> &str
    ensures { chars result.now ≡ rest_of is_white (chars text.now) }
{
    text.trim_start()
}

fn after_part(text: &str) -> &str
    ensures { chars result.now ≡ rest_of is_part (chars text.now) }
{
    let mut rest = text;
    while let Some((first, behind)) = first_of(rest) {
        if !is_part_character(first) {
            break;
        }
        rest = behind;
    }
    rest
}

// What stands before the rest.
fn front<'t>(text: &'t str, rest: &str) -> &'t str
    requires { chars rest.now ≡ rest_of is_part (chars text.now) }
    ensures { result.now ≡ encode_utf8_all (lead_of is_part (chars text.now)) }
{
    let (front, _) = text.split_at(text.len() - rest.len());
    front
}
