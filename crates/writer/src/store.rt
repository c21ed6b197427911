// Whether a script store holds its ops alone: a 0 at every index that no op of a declared domain
// stands at. The parameters of a function are those of the definition written_ops, in its order.
ghost use Rattle.std.specs.Prelude.{◌≡◌, ◌≤◌, ◌<◌, length};
ghost use Rattle.plan.specs.Limits.{most_domains};
ghost use Rattle.plan.specs.Sums.{all_below};
ghost use Rattle.script.specs.Limits.{last_domain, most_ops, scripts_length};
ghost use Rattle.writer.specs.Scripts.{op_or_zero, ops_alone, written_ops};

use plan::Plan;
use plan::limits::DOMAIN_ENTRIES;
use script::limits::MOST_OPS;
use script::stored_ops;

// How many ops of a domain a text can give.
fn written_ops(domains: usize, scripts: &[u32], domain: usize) -> usize
    requires { (length scripts.now ≡ scripts_length) × (domain ≤ last_domain) }
    ensures { (result ≡ written_ops domains scripts.now domain) × (result ≤ most_ops) }
{
    if domain < domains {
        return stored_ops(scripts, domain) as usize;
    }
    0
}

// Whether the part of a domain holds nothing but 0 past the ops that a text can give.
fn rest_empty(domains: usize, scripts: &[u32], domain: usize) -> bool
    requires { (length scripts.now ≡ scripts_length) × (domain < most_domains) }
    ensures { result ≡ all_below (op_or_zero domains scripts.now domain) most_ops }
{
    let ops = written_ops(domains, scripts, domain);
    let first = MOST_OPS * domain;
    scripts[first + ops..first + MOST_OPS]
        .iter()
        .all(|number| *number == 0)
}

// Whether every part does.
pub fn ops_alone(plan: Plan, scripts: &[u32]) -> bool
    requires { length scripts.now ≡ scripts_length }
    ensures { result ≡ ops_alone plan scripts.now }
{
    let domains = plan.domains as usize;
    (0..DOMAIN_ENTRIES).all(|domain| rest_empty(domains, scripts, domain))
}
