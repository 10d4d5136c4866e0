ghost use Rattle.std.specs.Prelude.{◌≡◌, ◌^◌, ◌≤◌, map, length, ℤ, pos, neg_ℤ, ◌≤ℤ◌, is_some, MatchOption, nat_le};
ghost use Rattle.sharing.specs.Shares.{sum_z, portion};
ghost use Rattle.sharing.specs.Fair.{Shared};

use crate::floor::floor_div;

// Whoever has a weight and takes a share.
pub trait Party {
    ghost weighs: { Self → ℤ };

    // the share that it took last
    ghost took: { Self → ℤ };

    // the party once it took a share
    ghost given: { Self → ℤ → Self };

    fn weight(&self) -> i32
        ensures { result ≡ weighs self.now };

    // Over weights of both signs a share can be larger than the amount.
    fn take(&mut self, share: i128)
        ensures { self.new ≡ given self.old share };

    ghost takes: { (p : Self) (s : ℤ) → took (given p s) ≡ s };

    // a share changes no weight
    ghost keeps: { (p : Self) (s : ℤ) → weighs (given p s) ≡ weighs p };
}

// A book has at most so many parties, its resources.
const MOST_PARTIES: usize = 64;

fn total_weight<P: Party>(parties: &[P]) -> i64
    requires { length parties.now ≤ 64 }
    ensures sum { result ≡ sum_z (map P.weighs parties.now) }
    ensures low { neg_ℤ (pos (2 ^ 40)) ≤ℤ result }
    ensures high { result ≤ℤ pos (2 ^ 40) }
{
    parties.iter().map(|p| i64::from(p.weight())).sum()
}

fn portion_of(amount: i64, total: i64, weight: i32) -> i128
    ensures value { result ≡ portion amount total weight }
    ensures low { neg_ℤ (pos (2 ^ 94)) ≤ℤ result }
    ensures high { result ≤ℤ pos (2 ^ 94) }
{
    let product = i128::from(amount) * i128::from(weight);
    floor_div(product, i128::from(total))
}

// A party takes its portion of the amount, which is the answer.
fn hand_out<P: Party>(party: &mut P, amount: i64, total: i64) -> i128
    ensures after { party.new ≡ P.given party.old result }
    ensures value { result ≡ portion amount total (P.weighs party.old) }
    ensures low { neg_ℤ (pos (2 ^ 94)) ≤ℤ result }
    ensures high { result ≤ℤ pos (2 ^ 94) }
{
    let part = portion_of(amount, total, party.weight());
    party.take(part);
    part
}

// Shares the amount over so few parties that no sum overflows, and answers what is left.
fn share_among<P: Party>(amount: i64, parties: &mut [P]) -> i64
    requires { length parties.old ≤ 64 }
    ensures { Shared P.weighs P.took P.given amount parties.old parties.new result }
{
    let total = total_weight(parties);
    // each party is written as its share is taken off
    let mut left = i128::from(amount);
    for p in parties.iter_mut() {
        left -= hand_out(p, amount, total);
    }
    left as i64
}

// Shares an amount of cents over the parties by their weights, and answers what is left of it.
// More than 64 parties are turned away with nothing shared.
pub fn share<P: Party>(amount: i64, parties: &mut [P]) -> Option<i64>
    ensures few { is_some result ≡ nat_le (length parties.old) 64 }
    ensures shared { MatchOption result (parties.new ≡ parties.old) (λ left. Shared P.weighs P.took P.given amount parties.old parties.new left) }
{
    if parties.len() > MOST_PARTIES {
        return None;
    }
    Some(share_among(amount, parties))
}
