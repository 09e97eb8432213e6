// Stations in a row, each over a memory of whatever make.
ghost use Rattle.std.specs.Prelude.{◌≡◌, List, [], ◌∷◌, map};
ghost use Rattle.wave.specs.Memory.{Loan};
ghost use Rattle.session.specs.Station.{Model, model, held, tried};

use crate::call::Call;
use crate::station::Station;
use wave::memory::Store;

pub trait Stems {
    ghost models: { Self → List Model };

    // the loans that they hold, those of each station in a list: what calls leave in them reaches their lenders
    ghost loans: { Self → List (List Loan) };

    // Tries a call on each.
    fn try_each(&mut self, call: Call)
        ensures values { models self.new ≡ map (tried call) (models self.old) }
        ensures same_loans { loans self.new ≡ loans self.old };
}

// No station.
impl Stems for () {
    ghost models = { λ stems. [] };

    ghost loans = { λ stems. [] };

    fn try_each(&mut self, _call: Call) {}
}

// A station, and then others: of three makes, `(a, (b, (c, ())))`.
impl<M: Store, R: Stems> Stems for (Station<'_, '_, M>, R) {
    ghost models = { λ stems. model M.bytes M.takes stems.0 ∷ R.models stems.1 };

    ghost loans = { λ stems. held M.borrows stems.0 ∷ R.loans stems.1 };

    fn try_each(&mut self, call: Call) {
        self.0.try_call(call);
        self.1.try_each(call);
    }
}

// Stations over memories of one make.
impl<M: Store> Stems for &mut [Station<'_, '_, M>] {
    ghost models = { λ stems. map (model M.bytes M.takes) stems.now };

    ghost loans = { λ stems. map (held M.borrows) stems.now };

    fn try_each(&mut self, call: Call) {
        try_row(self, call);
    }
}

fn try_row<M: Store>(stations: &mut [Station<'_, '_, M>], call: Call)
    ensures values { map (model M.bytes M.takes) stations.new
        ≡ map (tried call) (map (model M.bytes M.takes) stations.old) }
    ensures same_loans { map (held M.borrows) stations.new ≡ map (held M.borrows) stations.old }
{
    for station in stations.iter_mut() {
        station.try_call(call);
    }
}
