//! A cursor over the tokens of a statement.

ghost use Rattle.std.specs.Prelude.{◌≡◌, suc, length, drop, Ok, IfSome};
ghost use Rattle.jp_ast.specs.Seen.{place};
ghost use Rattle.jp_ast.specs.Classes as classes;
ghost use Rattle.jp_cursor.specs.Reading as spec;
ghost use Rattle.jp_ast.specs.SeenTokens.{seen_token, seen_tokens, AllFit};
ghost use Rattle.jp_cursor.specs.Reads.{Reads, Takes, Taken};

use crate::classes::{
    class_of, comparison, is_comparison, is_minus, is_name, is_sign, is_test, same, test_word,
};
use crate::content::{content, number_value};
use crate::stop::Stop;
use jp_ast::{Class, CmpWord, IsWord};
use jp_base::Txt;
use jp_lex::Token;
use std::alloc::Global;
use std::marker::Model;

/// What stands behind the first token.
fn behind<'t, 's>(tokens: &'t [Token<'s>]) -> &'t [Token<'s>]
    ensures { result.now ≡ drop 1 tokens.now }
{
    match tokens {
        [_, rest @ ..] => rest,
        [] => tokens,
    }
}

fn first(tokens: &[Token<'_>]) -> Class
    ensures { result ≡ classes.first (seen_tokens tokens.now) }
{
    match tokens {
        [token, ..] => class_of(token),
        [] => Class::Nothing,
    }
}

/// The tokens that are left, and what the next one is.
#[derive(Drop)]
pub struct Cursor<'t, 's> {
    tokens: &'t [Token<'s>],
    class: Class,
}

impl<'t, 's> Model for Cursor<'t, 's> {
    ghost use Rattle.std.specs.Prelude.{◌≡◌, List};
    ghost use Rattle.std.specs.Coded.{coded_list};
    ghost use Rattle.jp_ast.specs.Seen.{Seen};
    ghost use Rattle.jp_ast.specs.Classes.{first};
    ghost use Rattle.jp_cursor.specs.Codes.{seen_code};
    ghost use Rattle.jp_ast.specs.SeenTokens.{seen_tokens, AllFit};

    ghost Value = { List Seen };

    ghost coded = { coded_list seen_code };

    ghost view = { λ c. seen_tokens c.tokens.now };

    ghost invariant = { λ c. (c.class ≡ first (seen_tokens c.tokens.now)) × AllFit (seen_tokens c.tokens.now) };
}

impl<'t, 's> Cursor<'t, 's> {
    pub fn new(tokens: &'t [Token<'s>]) -> Cursor<'t, 's>
        requires { AllFit (seen_tokens tokens.now) }
        ensures { result ≡ seen_tokens tokens.now }
    {
        Cursor {
            tokens,
            class: first(tokens),
        }
    }

    /// What the next token is.
    pub fn peek(&self) -> Class
        ensures { result ≡ classes.first self.now }
    {
        self.class
    }

    /// The place of the next token.
    pub fn place(&self) -> u32
        ensures { result ≡ place self.now }
    {
        match self.tokens {
            [token, ..] => token.at,
            [] => 0,
        }
    }

    /// One more than the tokens that are left.
    pub fn turns(&self) -> usize
        ensures { result ≡ suc (length self.now) }
    {
        self.tokens.len() + 1
    }

    pub fn is_at_end(&self) -> bool
        ensures { result ≡ spec.is_empty self.now }
    {
        match self.tokens {
            [] => true,
            [_, ..] => false,
        }
    }

    /// Goes on behind the next token.
    fn step(&mut self)
        ensures { self.new ≡ drop 1 self.old }
    {
        let rest = behind(self.tokens);
        self.tokens = rest;
        self.class = first(rest);
    }

    pub fn sees(&self, class: Class) -> bool
        ensures { result ≡ spec.is class (classes.first self.now) }
    {
        same(self.class, class)
    }

    #[tactic(auto, unfolding(crate::specs::Reading::eat))]
    pub fn eat(&mut self, class: Class) -> bool
        ensures { spec.eat class self.old ≡ Ok (result, self.new) }
    {
        let found = self.sees(class);
        if found {
            self.step();
        }
        found
    }

    /// The next token, if there is one and it passes.
    fn take_if(&mut self, passes: bool) -> Option<&'t Token<'s>>
        ensures value { Takes passes self.old result self.new }
        ensures taken { IfSome result (λ token. Taken passes self.old (seen_token token.now)) }
    {
        if !passes {
            return None;
        }
        let token = self.tokens.first()?;
        self.step();
        Some(token)
    }

    #[tactic(auto, unfolding(crate::specs::Reading::expect), using(crate::proofs::Taken::token_if_is))]
    pub fn expect(&mut self, class: Class) -> Result<(), Stop>
        ensures { Reads (spec.expect class self.old) result self.new }
    {
        let passes = self.sees(class);
        match self.take_if(passes) {
            Some(_) => Ok(()),
            None => Err(Stop::Stuck),
        }
    }

    #[tactic(auto, unfolding(crate::specs::Reading::name), using(crate::proofs::Taken::token_if_is))]
    pub fn name(&mut self, alloc: Global) -> Result<Txt, Stop>
        ensures { Reads (spec.name self.old) result self.new }
    {
        let passes = is_name(self.class);
        let Some(token) = self.take_if(passes) else {
            return Err(Stop::Stuck);
        };
        let name = content(alloc, token)?;
        Ok(name)
    }

    #[tactic(auto, unfolding(crate::specs::Reading::text), using(crate::proofs::Taken::token_if_is))]
    pub fn text(&mut self, alloc: Global) -> Result<Txt, Stop>
        ensures { Reads (spec.text self.old) result self.new }
    {
        let passes = self.sees(Class::Text);
        let Some(token) = self.take_if(passes) else {
            return Err(Stop::Stuck);
        };
        let text = content(alloc, token)?;
        Ok(text)
    }

    #[tactic(auto, unfolding(crate::specs::Reading::number), using(crate::proofs::Taken::token_if_is))]
    pub fn number(&mut self) -> Result<i128, Stop>
        ensures { Reads (spec.number self.old) result self.new }
    {
        let passes = self.sees(Class::Number);
        let Some(token) = self.take_if(passes) else {
            return Err(Stop::Stuck);
        };
        Ok(number_value(token.text.as_bytes()) as i128)
    }

    /// A sign, and whether it is `-`.
    #[tactic(auto, unfolding(crate::specs::Reading::sign_token), using(crate::proofs::Taken::class_token_is))]
    pub fn sign(&mut self) -> Result<bool, Stop>
        ensures { Reads (spec.sign_token self.old) result self.new }
    {
        let class = self.class;
        match self.take_if(is_sign(class)) {
            Some(_) => Ok(is_minus(class)),
            None => Err(Stop::Stuck),
        }
    }

    #[tactic(auto, unfolding(crate::specs::Reading::comparison_token), using(crate::proofs::Taken::class_token_is))]
    pub fn comparison(&mut self) -> Result<CmpWord, Stop>
        ensures { Reads (spec.comparison_token self.old) result self.new }
    {
        let class = self.class;
        match self.take_if(is_comparison(class)) {
            Some(_) => Ok(comparison(class)),
            None => Err(Stop::Stuck),
        }
    }

    /// What may stand behind IS.
    #[tactic(auto, unfolding(crate::specs::Reading::test_token), using(crate::proofs::Taken::class_token_is))]
    pub fn test(&mut self) -> Result<IsWord, Stop>
        ensures { Reads (spec.test_token self.old) result self.new }
    {
        let class = self.class;
        match self.take_if(is_test(class)) {
            Some(_) => Ok(test_word(class)),
            None => Err(Stop::Stuck),
        }
    }

    /// The next tokens are `name . *`.
    pub fn sees_all_of(&self) -> bool
        ensures { result ≡ spec.begins_all_of self.now }
    {
        match self.tokens {
            [q, dot, star, ..] => {
                is_name(class_of(q))
                    && same(class_of(dot), Class::Dot)
                    && same(class_of(star), Class::Star)
            }
            _ => false,
        }
    }
}
