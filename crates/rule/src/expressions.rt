// The types of expressions.
ghost use Rattle.std.specs.Prelude.{◌≡◌, ◌&&◌};
ghost use Rattle.language.specs.Tree.{Expr};
ghost use Rattle.language.specs.Results.{asked};
ghost use Rattle.language.specs.Values.{alike};
ghost use Rattle.language.specs.Names.{check_expr, refusal};
ghost use Rattle.language.specs.declared.faults.NamesCause.TheVariants.{Types};
ghost use Rattle.rule.specs.Pieces.{IsExpr, Halved};
ghost use Rattle.rule.specs.Seen.{Names as Sights, Sees};
ghost use Rattle.rule.specs.Shown.{SomeExpr, Shows, Operates};

use crate::checker::Checker;
use crate::parts::Part;
use language::{Fault, Kind, Name, NamesCause, Scalar};

// What an expression is, with the parts of its operands.
#[derive(Clone, Copy)]
pub enum ExprView<'a> {
    Constant(Scalar),
    Read(Name),
    // both operands must have the type `wanted`, and the value has the type `gives`
    Operator {
        left: Part<'a>,
        right: Part<'a>,
        wanted: Scalar,
        gives: Scalar,
    },
}

// Both types are the same: the question itself, which is asked by `==`.
pub(crate) fn agree(t: Scalar, u: Scalar, place: usize) -> Result<(), Fault>
    ensures asked { result ≡ asked (alike t u) (refusal Types place) }
{
    if t == u {
        Ok(())
    } else {
        Err(Fault::new(NamesCause::Types.into(), place))
    }
}

fn both_are(t: Scalar, u: Scalar, wanted: Scalar, place: usize) -> Result<(), Fault>
    ensures asked { result ≡ asked (alike t wanted && alike u wanted) (refusal Types place) }
{
    agree(t, wanted, place)?;
    agree(u, wanted, place)
}

fn operator<'a>(part: Part<'a>, wanted: Scalar, gives: Scalar) -> ExprView<'a>
    requires halved { Halved part }
    ensures halves { Operates part.entry result wanted gives }
{
    let (left, right) = part.halves();
    ExprView::Operator {
        left,
        right,
        wanted,
        gives,
    }
}

#[tactic(auto, using(crate::proofs::ExprShapes::expr_long))]
fn view<'a>(part: Part<'a>) -> ExprView<'a>
    requires some { SomeExpr part }
    ensures shows { (x : Expr) → IsExpr part.entry x → Shows result part.entry x }
{
    match part.kind() {
        Kind::Truth => ExprView::Constant(Scalar::Truth),
        Kind::Whole => ExprView::Constant(Scalar::Whole),
        Kind::Read => ExprView::Read(part.last().name),
        Kind::Plus => operator(part, Scalar::Whole, Scalar::Whole),
        Kind::Less => operator(part, Scalar::Whole, Scalar::Truth),
        Kind::Or => operator(part, Scalar::Truth, Scalar::Truth),
        _ => unreachable(),
    }
}

impl Checker<'_, '_, '_> {
    // The type of the expression that the part is.
    #[tactic(auto, using(crate::proofs::ExprShapes::expr_long))]
    pub(crate) fn expression(&self, part: Part<'_>) -> Result<Scalar, Fault>
        requires some { SomeExpr part }
        ensures says { (x : Expr) (ρ : Sights) → IsExpr part.entry x → Sees self.now ρ → result ≡ check_expr ρ x }
    {
        match view(part) {
            ExprView::Constant(t) => Ok(t),
            ExprView::Read(name) => self.variable(name, part.place()),
            ExprView::Operator {
                left,
                right,
                wanted,
                gives,
            } => {
                let t = self.expression(left)?;
                let u = self.expression(right)?;
                both_are(t, u, wanted, part.place())?;
                Ok(gives)
            }
        }
    }
}
