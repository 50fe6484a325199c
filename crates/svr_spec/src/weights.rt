ghost use Rattle.std.specs.Prelude.{◌≡◌, ◌≤◌, ◌^◌, pos, neg_ℤ, ◌*◌, ◌*ℤ◌, ◌≤ℤ◌, length};
ghost use Rattle.std.specs.List.{All};
ghost use Rattle.svr_schema.specs.Lawful.{IsSchema, IsWeight};
ghost use Rattle.svr_num.specs.Aggregates.{IsValue};
ghost use Rattle.svr_spec.specs.Weights.{total_of, weight_of, weighted_score};
ghost use Rattle.svr_spec.specs.Layout.{IsWeighted};

use svr_num::{Score, clamp_score, floor_div};
use svr_schema::{Component, Schema};

fn weight(component: &Component) -> i64
    ensures { result ≡ weight_of component.now }
{
    match component {
        Component::Own { weight, .. } => *weight,
        Component::Over { weight, .. } => *weight,
    }
}

/// Weight times value.
fn product(weight: i64, value: i128) -> i128
    requires weight { IsWeight weight }
    requires value { IsValue value }
    ensures value { result ≡ weight *ℤ value }
    ensures low { neg_ℤ (pos (2 ^ 112)) ≤ℤ result }
    ensures high { result ≤ℤ pos (2 ^ 112) }
{
    i128::from(weight) * value
}

/// The sum of weight times value.
#[tactic(auto, unfolding(crate::specs::Weights::total_of))]
fn total(components: &[Component], values: &[i128]) -> i128
    requires few { length components.now ≤ 8 }
    requires weighted { All IsWeighted components.now }
    requires values { All IsValue values.now }
    ensures value { result ≡ total_of components.now values.now }
    ensures low { neg_ℤ (pos (2 ^ 112 * length components.now)) ≤ℤ result }
    ensures high { result ≤ℤ pos (2 ^ 112 * length components.now) }
{
    let (Some((component, components)), Some((value, values))) = (
        components.split_first(),
        values.split_first(),
    ) else {
        return 0;
    };
    product(weight(component), *value) + total(components, values)
}

/// The score of a document whose components have these values, in the components' order.
pub fn weighted(schema: &Schema, values: &[i128]) -> Score
    requires lawful { IsSchema schema.now }
    requires as_many { length values.now ≡ length schema.now.components }
    requires values { All IsValue values.now }
    ensures { result ≡ weighted_score schema.now values.now }
{
    let total = total(schema.components.as_slice(), values);
    clamp_score(floor_div(total, i128::from(schema.divisor)))
}
