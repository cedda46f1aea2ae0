// The laws of rounds among other events.
ghost use Rattle.std.specs.Prelude.{List, Some, false, suc, length, true, ◌+◌, ◌<◌, ◌≡◌, ◌≢◌, ◌⊎◌, ℕ};
ghost use Rattle.sync_model.specs.Bytes.{Name};
ghost use Rattle.sync_model.specs.Clients.{client_of};
ghost use Rattle.sync_model.specs.Log.{ident_of, log};
ghost use Rattle.sync_model.specs.Progress.{Comes, HasCaughtUp, IsException, IsRoomy, lacks};
ghost use Rattle.sync_model.specs.Worlds.{Event, IsReached, Node, World, at, world_after};
ghost use Rattle.progress_law.specs.Among.{AreCarried, BearsAll, Beside, Brings, GetsAmong, HasBoth, HinderedAmong, IsAlone, WasCurrent, after_all_rounds, after_bind, after_round, bind_words, change_size, entry_size, own_words, reach, rounds_among, to_send};

use sync_model::Exchange;

/// Whatever happens beside a round, before it and between its events, from every world that events make: the server has each
/// change that the upload bore, and the client as many entries more as a message bears, or one of the round's own five events is
/// a named exception. So where each message bears all, one round is enough: the client has the history that the server had when
/// it answered, and in it all changes that the client had when it uploaded. In any form either the client or the server got
/// further, or the client was current when it uploaded, and the history was still the same when the server answered; so of more
/// rounds than what is lacking in the end one is such a one. By what messages bear: where so many uploads bear what is to be sent
/// till the end and so many replies what is to be taken, one less than both together is enough, and if nobody else adds to the
/// history the client is current then.
pub fn rounds_among_events_make_progress<E: Exchange>()
    ensures named { (w : World) → IsReached E.profile w → (i : ℕ) (nd : Node) → at w.clients i ≡ Some nd → (before between after : List (Event E.Instr))
        → Comes (IsException (Unit {0}) (ident_of E.profile w nd ≡ 0) ⊥) (bind_words E.profile nd.name w before between after)
        ⊎ ((end : Node) → at (after_bind E.profile nd.name w before between after).clients i ≡ Some end → (client_of E.profile end.records).ident ≢ 0) }
    ensures brings { (w : World) → IsReached E.profile w → (i : ℕ) (nd : Node) → at w.clients i ≡ Some nd → (client_of E.profile nd.records).ident ≢ 0 → (client_of E.profile nd.records).second ≡ true → (b : Beside E.Instr)
        → Comes (IsException (Unit {0}) ⊥ ⊥) (own_words E.profile nd.name w b) ⊎ Brings E.profile nd.name w b i }
    ensures enough { (w : World) → IsReached E.profile w → (i : ℕ) (nd : Node) → at w.clients i ≡ Some nd → (client_of E.profile nd.records).ident ≢ 0 → (client_of E.profile nd.records).second ≡ true → (b : Beside E.Instr)
        → BearsAll E.profile nd.name w b i → Comes (IsException (Unit {0}) ⊥ ⊥) (own_words E.profile nd.name w b) ⊎ HasBoth E.profile nd.name w b i }
    ensures gains { IsRoomy E.profile → (w : World) → IsReached E.profile w → (i : ℕ) (nd : Node) → at w.clients i ≡ Some nd → (client_of E.profile nd.records).ident ≢ 0 → (b : Beside E.Instr)
        → Comes (IsException (Unit {0}) ⊥ ((client_of E.profile nd.records).second ≡ false)) (own_words E.profile nd.name w b)
        ⊎ (((end : Node) → at (after_round E.profile nd.name w b).clients i ≡ Some end → reach E.profile w nd < reach E.profile (after_round E.profile nd.name w b) end) ⊎ WasCurrent E.profile nd.name w b) }
    ensures gets { IsRoomy E.profile → (w : World) → IsReached E.profile w → (i : ℕ) (nd : Node) → at w.clients i ≡ Some nd → (client_of E.profile nd.records).ident ≢ 0 → (bs : List (Beside E.Instr))
        → ((end : Node) → at (after_all_rounds E.profile nd.name w bs).clients i ≡ Some end → length (log E.profile (after_all_rounds E.profile nd.name w bs)) + length (client_of E.profile end.records).made < reach E.profile w nd + length bs)
        → GetsAmong E.profile (IsException (Unit {0}) ⊥ ((client_of E.profile nd.records).second ≡ false)) (WasCurrent E.profile nd.name) nd.name w bs }
    ensures carries { (w : World) → IsReached E.profile w → (i : ℕ) (nd : Node) → at w.clients i ≡ Some nd → (client_of E.profile nd.records).ident ≢ 0 → (client_of E.profile nd.records).second ≡ true → (bs : List (Beside E.Instr)) (up down : ℕ)
        → ((end : Node) → at (after_all_rounds E.profile nd.name w bs).clients i ≡ Some end → AreCarried E.profile change_size (suc up) (to_send E.profile nd end)) → AreCarried E.profile entry_size (suc down) (lacks E.profile (after_all_rounds E.profile nd.name w bs) nd) → up + down < length bs
        → GetsAmong E.profile (IsException (Unit {0}) ⊥ ⊥) (λ v b. HasBoth E.profile nd.name v b i) nd.name w bs }
    ensures alone { (w : World) → IsReached E.profile w → (i : ℕ) (nd : Node) → at w.clients i ≡ Some nd → (client_of E.profile nd.records).ident ≢ 0 → (client_of E.profile nd.records).second ≡ true → (bs : List (Beside E.Instr)) (up down : ℕ)
        → ((end : Node) → at (after_all_rounds E.profile nd.name w bs).clients i ≡ Some end → IsAlone E.profile w (after_all_rounds E.profile nd.name w bs) nd end × AreCarried E.profile change_size (suc up) (to_send E.profile nd end)) → AreCarried E.profile entry_size (suc down) (lacks E.profile (after_all_rounds E.profile nd.name w bs) nd) → up + down < length bs
        → HinderedAmong E.profile (IsException (Unit {0}) ⊥ ⊥) nd.name w bs ⊎ HasCaughtUp E.profile (after_all_rounds E.profile nd.name w bs) nd.name }
    ensures events { (name : Name) (w : World) (bs : List (Beside E.Instr)) → world_after E.profile w (rounds_among E.profile name w bs) ≡ after_all_rounds E.profile name w bs }
{}
