// The trains, which are drawn.
ghost use Rattle.std.specs.Prelude.{◌≡◌, ◌<◌, ◌≤◌, ◌∷◌, ◌++◌, [], codes, decimal, IfOk};
ghost use Rattle.station.specs.Allowed.{numbers};
ghost use Rattle.station_gen.specs.Made.{next, made_train, made_trains};

use crate::generator::Generator;
use sequence::Sequence;
use station::{Name, Train};
use std::alloc::{AllocError, Global};

pub(crate) fn drawn_trains(
    alloc: Global,
    number: u64,
    count: u8,
) -> Result<Sequence<Train>, AllocError>
    requires { count ≤ 200 }
    ensures { IfOk result (λ s. s ≡ made_trains number count) }
{
    let mut generator = Generator { state: number };
    let mut found = Vec::new(alloc);
    for train in 0..count {
        found.push(drawn_train(alloc, train, &mut generator)?)?;
    }
    Ok(Sequence::from_vec(found))
}

/// The train of this number, with the next five draws.
#[tactic(auto, unfolding(crate::specs::Made::made_train))]
fn drawn_train(alloc: Global, train: u8, generator: &mut Generator) -> Result<Train, AllocError>
    requires { train < 200 }
    ensures train { IfOk result (λ t. t ≡ made_train generator.old.state train) }
    ensures state { generator.new.state ≡ next (next (next (next (next generator.old.state)))) }
{
    let from = generator.draw(4);
    let to = generator.draw(4);
    let arrive = 60 + 7 * u64::from(train) + generator.draw(5);
    let depart = arrive + 4 + generator.draw(8);
    let prefer = generator.draw(5);
    Ok(Train {
        name: train_name(alloc, train)?,
        from: Some(from as u8),
        to: Some(to as u8),
        arrive: arrive as i32,
        depart: depart as i32,
        dwell: 3,
        arrive_early: 1,
        arrive_late: 1,
        depart_early: 1,
        depart_late: 1,
        platforms: all_platforms(alloc)?,
        prefer: one_platform(alloc, prefer as u8)?,
        off_price: 50,
        shift_price: 10,
        surcharges: Sequence::from_vec(Vec::new(alloc)),
    })
}

#[tactic(auto, using(crate::proofs::Names::name_train))]
fn train_name(alloc: Global, train: u8) -> Result<Name, AllocError>
    requires { train < 200 }
    ensures { IfOk result (λ n. n ≡ codes "T" ++ decimal train) }
{
    let text = format!(in alloc; "T{train}")?;
    Name::new(alloc, text.as_bytes())
}

fn all_platforms(alloc: Global) -> Result<Sequence<u8>, AllocError>
    ensures { IfOk result (λ s. s ≡ numbers 6) }
{
    Ok(Sequence::from_vec(vec![in alloc; 0, 1, 2, 3, 4, 5]?))
}

fn one_platform(alloc: Global, number: u8) -> Result<Sequence<u8>, AllocError>
    ensures { IfOk result (λ s. s ≡ number ∷ []) }
{
    Ok(Sequence::from_vec(vec![in alloc; number]?))
}
