// The tests that rules share. Comparisons are those of IEEE 754.
ghost use Rattle.std.specs.Prelude.{[], ◌∷◌, ◌≡◌};
ghost use Rattle.ast.specs.Tree as tree;
ghost use Rattle.ast.specs.Means.{value_view, opt_easing_view};
ghost use Rattle.error.specs.declared.Refusal.TheVariants.{UnknownEasing};
ghost use Rattle.checking.specs.Rules.{given, unknown_easing, mismatched, first};
ghost use Rattle.node_rules.specs.Means.{fault_of, Tells, counts_differ, unknown, easing_fault};

use ast::{EasingSpec, ValueExpr};
use error::Refusal;

// Counts of components are compared, not kinds.
pub fn is_mismatched(from: ValueExpr, to: ValueExpr) -> bool
    ensures held { result ≡ counts_differ from to }
    ensures told { (a b : tree.ValueExpr) → value_view a ≡ from → value_view b ≡ to → result ≡ mismatched a b }
{
    ast::component_count(from) != ast::component_count(to)
}

fn is_unknown(text: &[u8], easing: EasingSpec) -> bool
    ensures { result ≡ unknown text.now easing }
{
    match easing {
        EasingSpec::Named(variant, name) => {
            !easing::is_named_easing(text, name.start, name.size, variant)
        }
        _ => false,
    }
}

// Refuses an easing that has no known name.
#[tactic(auto, unfolding(checking::specs::Rules::first))]
pub fn validate_easing(text: &[u8], easing: Option<EasingSpec>) -> Result<(), Refusal>
    ensures held { fault_of result ≡ easing_fault text.now easing }
    ensures told { Tells opt_easing_view (λ o. first ((given (unknown_easing text.now) o, UnknownEasing) ∷ [])) easing (fault_of result) }
{
    if easing.is_some_and(|e| is_unknown(text, e)) {
        return Err(Refusal::UnknownEasing);
    }
    Ok(())
}
