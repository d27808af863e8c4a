// The first net of which a step takes too little, and the first of which it does not give what the event leaves. Rows are compared without a
// branch, so that several numbers are compared at once.
ghost use Rattle.std.specs.Prelude.{◌≡◌, ◌≤◌};
ghost use Rattle.eos.specs.Vector.{le_v};
ghost use Rattle.eos.specs.Causes.{failing};
ghost use Rattle.model.specs.Held.{row_at, told};
ghost use Rattle.step.specs.VerdictParts.{Small, SmallRows, even, even_in};

// Whether of a net no more is asked than is held.
fn enough(asked: &[u64; 32], held: &[u64; 32]) -> bool
    ensures { result ≡ le_v asked.now held.now }
{
    let mut all = true;
    for (ask, hold) in asked.iter().zip(held.iter()) {
        all &= ask <= hold;
    }
    all
}

// The first net of which more is asked than is held.
pub fn short_net(nets: usize, asked: &[[u64; 32]; 8], held: &[[u64; 32]; 8]) -> Option<usize>
    requires { nets ≤ 8 }
    ensures { result ≡ told (failing nets 0 (λ n. le_v (row_at asked.now n) (row_at held.now n))) }
{
    (0..nets).find(|net| !enough(&asked[*net], &held[*net]))
}

// Whether what is made of a net is what is held of it, without pre and with post; four rows at one index.
fn even(made: &[u64; 32], held: &[u64; 32], pre: &[u64; 32], post: &[u64; 32]) -> bool
    requires { Small held.now × Small post.now }
    ensures { result ≡ even made.now held.now pre.now post.now }
{
    let mut all = true;
    for k in 0..32 {
        all &= made[k] == held[k].saturating_sub(pre[k]) + post[k];
    }
    all
}

// The first net that is not balanced.
pub fn unbalanced_net(
    nets: usize,
    made: &[[u64; 32]; 8],
    held: &[[u64; 32]; 8],
    pre: &[[u64; 32]; 8],
    post: &[[u64; 32]; 8],
) -> Option<usize>
    requires { (nets ≤ 8) × SmallRows held.now × SmallRows post.now }
    ensures { result ≡ told (failing nets 0 (even_in made.now held.now pre.now post.now)) }
{
    (0..nets).find(|net| !even(&made[*net], &held[*net], &pre[*net], &post[*net]))
}
