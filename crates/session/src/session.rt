// A session: a mix and its stems, on which the same calls are tried.
ghost use Rattle.std.specs.Prelude.{◌≡◌, ℕ, List, map};
ghost use Rattle.kind.specs.declared.Kind.{Kind as AKind};
ghost use Rattle.session.specs.Station.{model, held, tried, tried_all};
ghost use Rattle.session.specs.Groups.{Divides};
ghost use Rattle.session.specs.Stems.{Begun, MixAndStems};
ghost use Rattle.session.specs.Law.{Together, Throughout, Law};

use crate::call::Call;
use crate::station::Station;
use crate::stems::Stems;
use wave::memory::Store;

#[derive(Drop)]
pub struct Session<'a, 'b, M, S> {
    pub mix: Station<'a, 'b, M>,
    pub stems: S,
}

impl<M: Store, S: Stems> Session<'_, '_, M, S> {
    // Tries a call on the mix and on each stem.
    pub fn try_call(&mut self, call: Call)
        ensures mix { model M.bytes M.takes self.new.mix ≡ tried call (model M.bytes M.takes self.old.mix) }
        ensures stems { S.models self.new.stems ≡ map (tried call) (S.models self.old.stems) }
        ensures mix_loans { held M.borrows self.new.mix ≡ held M.borrows self.old.mix }
        ensures stem_loans { S.loans self.new.stems ≡ S.loans self.old.stems }
        ensures kept { (groups : List ℕ) → Divides groups →
            MixAndStems groups (model M.bytes M.takes self.old.mix) (S.models self.old.stems) →
            MixAndStems groups (model M.bytes M.takes self.new.mix) (S.models self.new.stems) }
        ensures together { (groups : List ℕ) → Divides groups →
            MixAndStems groups (model M.bytes M.takes self.old.mix) (S.models self.old.stems) →
            Together groups call (model M.bytes M.takes self.new.mix) (S.models self.new.stems) }
    {
        self.mix.try_call(call);
        self.stems.try_each(call);
    }

    // Tries calls one by one.
    pub fn try_calls(&mut self, calls: &[Call])
        ensures mix { model M.bytes M.takes self.new.mix
            ≡ tried_all calls.now (model M.bytes M.takes self.old.mix) }
        ensures stems { S.models self.new.stems ≡ map (tried_all calls.now) (S.models self.old.stems) }
        ensures mix_loans { held M.borrows self.new.mix ≡ held M.borrows self.old.mix }
        ensures stem_loans { S.loans self.new.stems ≡ S.loans self.old.stems }
        ensures throughout { (groups : List ℕ) → Divides groups →
            MixAndStems groups (model M.bytes M.takes self.old.mix) (S.models self.old.stems) →
            Throughout groups calls.now (model M.bytes M.takes self.old.mix) (S.models self.old.stems) }
        ensures law { (kind : AKind) (groups : List ℕ) → Divides groups →
            Begun kind groups (model M.bytes M.takes self.old.mix) (S.models self.old.stems) →
            Law groups calls.now (model M.bytes M.takes self.old.mix) (S.models self.old.stems) }
    {
        for call in calls {
            self.try_call(*call);
        }
    }
}
