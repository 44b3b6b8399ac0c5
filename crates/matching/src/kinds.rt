// Labels against components: which vertex first disagrees in kind with a smaller one.
ghost use Rattle.std.specs.Prelude.{◌≡◌, not, length};
ghost use Rattle.std.specs.Bool.{beq};
ghost use Rattle.basis.specs.Order.{same_z};
ghost use Rattle.matching.specs.Verdict.{unlike_vertex};
ghost use Rattle.matching.specs.Steps.{counted};

use basis::order::same;

// Two claims are the same and the labels of their vertices are not, or the other way round.
fn unlike(claim: i64, smaller_claim: i64, label: i64, smaller_label: i64) -> bool
    ensures { result ≡ not (beq (same_z claim smaller_claim) (same_z label smaller_label)) }
{
    same(claim, smaller_claim) != same(label, smaller_label)
}

// The smallest vertex that disagrees in kind with a smaller one.
// Stays: a labelled block, left from inside the nested loops with the first mismatch: the form that the rules name.
pub(crate) fn first_unlike(labels: &[i64], claims: &[i64]) -> Option<usize>
    requires { length labels.now ≡ length claims.now }
    ensures { counted result ≡ unlike_vertex labels.now claims.now }
{
    let first = 'vertices: {
        for i in 0..labels.len() {
            for j in 0..i {
                if unlike(claims[i], claims[j], labels[i], labels[j]) {
                    break 'vertices Some(i);
                }
            }
        }
        None
    };
    first
}
