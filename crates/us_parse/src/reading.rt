//! Reading expressions.

ghost use Rattle.std.specs.Prelude.{◌≡◌, ◌≤◌, ◌<◌, true, false, IfOk, IfErr, length, ℕ};
ghost use Rattle.us_expr.specs.Tree.{tree};
ghost use Rattle.us_parse.specs.Reads.{text_of, lead, is_fixed, ReadsFactor, ReadsTerm, ReadsExpr, GoesLeaf, Missed, operand_fault, has_operand, sum_tree, quotient_tree};

use crate::stop::Stop;
use crate::tokens::{
    divisor, excess, expect, number, product_sign, refusal, stands, sum_sign, variable,
};
use sqlite_items::Boxed;
use std::alloc::{AllocError, Global};
use us_decl::{Lexeme, Mark, Names};
use us_expr::Expr;
use us_tokens::{Cursor, Next};

/// A text that is being read, and the names so far of the head or part that is read.
#[derive(Drop)]
pub struct Reader<'a> {
    pub alloc: Global,
    pub cursor: Cursor<'a, Lexeme>,
    pub names: Names,
}

fn sum_of(alloc: Global, left: Expr, plus: bool, right: Expr) -> Result<Expr, AllocError>
    ensures { IfOk result (λ e. tree e ≡ sum_tree plus (tree left) (tree right)) }
{
    let left = Boxed::new(alloc, left)?;
    let right = Boxed::new(alloc, right)?;
    if plus {
        Ok(Expr::Add(left, right))
    } else {
        Ok(Expr::Sub(left, right))
    }
}

fn quotient_of(alloc: Global, left: Expr, over: bool, divisor: u32) -> Result<Expr, AllocError>
    ensures { IfOk result (λ e. tree e ≡ quotient_tree over (tree left) divisor) }
{
    let left = Boxed::new(alloc, left)?;
    if over {
        Ok(Expr::Div(left, divisor))
    } else {
        Ok(Expr::Rem(left, divisor))
    }
}

impl Reader<'_> {
    /// An operand of one token.
    fn operand(&mut self) -> Result<Expr, Stop>
        requires names { length self.old.names ≤ 32 }
        requires open { is_fixed Mark.Open (lead (text_of self.old.cursor)) ≡ false }
        ensures ok { IfOk result (λ e. GoesLeaf (text_of self.old.cursor) (text_of self.new.cursor) self.old.names self.new.names e) }
        ensures err { IfErr result (λ e. Missed (operand_fault (text_of self.old.cursor)) (has_operand self.old.names (text_of self.old.cursor)) e) }
    {
        match self.cursor.peek() {
            Next::Token(Lexeme::Fixed(Mark::I)) => {
                self.cursor.advance();
                Ok(Expr::I)
            }
            Next::Token(Lexeme::Fixed(Mark::J)) => {
                self.cursor.advance();
                Ok(Expr::J)
            }
            Next::Token(Lexeme::Name) => {
                let number = variable(&mut self.cursor, &mut self.names)?;
                Ok(Expr::Var(number))
            }
            Next::Token(Lexeme::Number(_)) => {
                let number = number(&mut self.cursor)?;
                Ok(Expr::Const(number))
            }
            _ => Err(refusal(&self.cursor)),
        }
    }

    /// A factor of one token, as one more node.
    fn leaf(&mut self, nodes: u32) -> Result<(Expr, u32), Stop>
        requires names { length self.old.names ≤ 32 }
        requires nodes { nodes ≤ 32 }
        requires open { is_fixed Mark.Open (lead (text_of self.old.cursor)) ≡ false }
        ensures { (depth : ℕ) → ReadsFactor (text_of self.old.cursor) (text_of self.new.cursor) depth nodes self.old.names self.new.names result }
    {
        let beyond = excess(&self.cursor);
        let operand = self.operand()?;
        if nodes >= 32 {
            return Err(beyond);
        }
        Ok((operand, nodes + 1))
    }

    /// An expression in parentheses.
    #[cycle(expr)]
    fn group(&mut self, depth: u32, nodes: u32) -> Result<(Expr, u32), Stop>
        requires depth { depth ≤ 32 }
        requires nodes { nodes ≤ 32 }
        requires names { length self.old.names ≤ 32 }
        requires open { is_fixed Mark.Open (lead (text_of self.old.cursor)) ≡ true }
        ensures { ReadsFactor (text_of self.old.cursor) (text_of self.new.cursor) depth nodes self.old.names self.new.names result }
    {
        if depth >= 32 {
            return Err(excess(&self.cursor));
        }
        self.cursor.advance();
        let (inner, count) = self.expr(depth + 1, nodes)?;
        expect(&mut self.cursor, Mark::Close)?;
        Ok((inner, count))
    }

    /// A factor.
    #[cycle(expr)]
    fn factor(&mut self, depth: u32, nodes: u32) -> Result<(Expr, u32), Stop>
        requires depth { depth ≤ 32 }
        requires nodes { nodes ≤ 32 }
        requires names { length self.old.names ≤ 32 }
        ensures { ReadsFactor (text_of self.old.cursor) (text_of self.new.cursor) depth nodes self.old.names self.new.names result }
    {
        if stands(&self.cursor, Mark::Open) {
            self.group(depth, nodes)
        } else {
            self.leaf(nodes)
        }
    }

    /// Factors with `/` and `%` between them.
    #[cycle(expr)]
    fn term(&mut self, depth: u32, nodes: u32) -> Result<(Expr, u32), Stop>
        requires depth { depth ≤ 32 }
        requires nodes { nodes ≤ 32 }
        requires names { length self.old.names ≤ 32 }
        ensures { ReadsTerm (text_of self.old.cursor) (text_of self.new.cursor) depth nodes self.old.names self.new.names result }
    {
        let (mut product, mut count) = self.factor(depth, nodes)?;
        while let Some(over) = product_sign(&self.cursor) {
            if count >= 32 {
                return Err(excess(&self.cursor));
            }
            self.cursor.advance();
            let number = divisor(&mut self.cursor)?;
            product = quotient_of(self.alloc, product, over, number)?;
            count += 1;
        }
        Ok((product, count))
    }

    /// Terms with `+` and `-` between them.
    #[cycle(expr)]
    pub fn expr(&mut self, depth: u32, nodes: u32) -> Result<(Expr, u32), Stop>
        requires depth { depth ≤ 32 }
        requires nodes { nodes ≤ 32 }
        requires names { length self.old.names ≤ 32 }
        ensures { ReadsExpr (text_of self.old.cursor) (text_of self.new.cursor) depth nodes self.old.names self.new.names result }
    {
        let (mut sum, mut count) = self.term(depth, nodes)?;
        while let Some(plus) = sum_sign(&self.cursor) {
            if count >= 32 {
                return Err(excess(&self.cursor));
            }
            self.cursor.advance();
            let (next, total) = self.term(depth, count + 1)?;
            sum = sum_of(self.alloc, sum, plus, next)?;
            count = total;
        }
        Ok((sum, count))
    }
}
