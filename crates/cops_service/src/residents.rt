//! The tenants that clients may be greeted as.
ghost use Rattle.std.specs.Prelude.{◌≡◌, ◌<◌, ◌≤◌, ◌++◌, ◌∷◌, ◌&&◌, ◌==◌, [], length, slice_get, IfOk, IfSome, Some};
ghost use Rattle.std.specs.List.{list_any};
ghost use Rattle.std.specs.Vec.{vec_capacity, vec_len};
ghost use Rattle.cops_types.specs.declared.configs.Config.{Config};
ghost use Rattle.cops_node.specs.Hosting.{Hosted};
ghost use Rattle.cops_service.specs.Admitted.{ShowsLife, empty_config, no_gates};
ghost use Rattle.cops_service.specs.Gates.{Gates, HasSeenMore, IsSeatOf, IsWitnessOf};

use crate::cluster::{Cluster, ServiceSeat};
use crate::roster::Life;
use cops_gate::Witness;
use cops_node::HostedNode;
use cops_types::{Config, Tenant};
use std::alloc::{AllocError, Global};
use std::marker::{Brand, PhantomData};
use std::sync::atomic::{AtomicU64, Ordering};
use std::sync::{Mutex, Wait};

/// The most tenants at once.
const MOST_RESIDENTS: usize = 64;

/// The service that tenants are residents of, for the proof alone. A call at `Brand` chooses it.
pub(crate) trait Site {
    /// What it began with.
    ghost config: { Config };

    ghost cluster: { Gates Hosted };
}

impl Site for Brand {
    ghost config = { empty_config };

    ghost cluster = { no_gates };
}

/// A tenant that all nodes have, in a life of its slot.
#[derive(Clone, Copy)]
pub(crate) struct Resident {
    pub(crate) life: Life,
    pub(crate) tenant: Tenant,
}

/// A resident, with a witness of all that shows that the life is the tenant's.
#[derive(Drop)]
struct Entered<S: Site> {
    resident: Resident,
    witness: Witness<HostedNode>,
    site: PhantomData<S>,
    ghost own: { IsWitnessOf S.cluster witness },
    ghost shown: { ShowsLife S.config S.cluster resident.life resident.tenant witness.history },
}

/// The tenants that clients may be greeted as. The host enters a tenant once all nodes have it, and removes it before the
/// first node loses it. A lock is held for one look-up or one change. No call allocates.
#[derive(Drop)]
pub(crate) struct Residents<S: Site> {
    entered: Mutex<Vec<Entered<S>>>,
    // The number of tenants that have left. A tenant is counted after it was removed.
    departures: AtomicU64,
}

// Enters a tenant, if there is room.
fn enter<S: Site>(all: &mut Vec<Entered<S>>, entered: Entered<S>)
    ensures added { vec_len all.old < vec_capacity all.old →
        all.new.items ≡ all.old.items ++ entered ∷ [] }
    ensures full { vec_capacity all.old ≤ vec_len all.old → all.new.items ≡ all.old.items }
{
    if all.len() < all.capacity() {
        all.push_reserved(entered);
    }
}

// Returns `true` if a tenant is here in this life.
fn is_among<S: Site>(all: &[Entered<S>], life: Life) -> bool
    ensures { result ≡ list_any (λ entered. (entered.resident.life.slot == life.slot)
        && (entered.resident.life.number == life.number)) all.now }
{
    all.iter().any(|entered| entered.resident.life == life)
}

// Returns the place of the first tenant with this token.
fn place_of_token<S: Site>(all: &[Entered<S>], token: &[u8; 16]) -> Option<usize>
    ensures within { IfSome result (λ place. place < length all.now) }
    ensures found { IfSome result (λ place. IfSome (slice_get all.now place)
        (λ entered. entered.resident.tenant.token ≡ token.now)) }
{
    for place in 0..all.len() {
        if all[place].resident.tenant.token.as_bytes() == token {
            return Some(place);
        }
    }
    None
}

impl<S: Site> Entered<S> {
    // Returns the tenant in its life, and lets a seat see that this is so.
    #[tactic(auto, using(crate::proofs::Admitted::shows_later))]
    fn show(
        &mut self,
        cluster: &Cluster<HostedNode>,
        seat: &mut ServiceSeat<HostedNode>,
    ) -> Resident
        requires site { cluster.now ≡ S.cluster }
        requires seat { IsSeatOf cluster.now seat.old }
        ensures resident { result ≡ self.old.resident }
        ensures seat { IsSeatOf cluster.now seat.new }
        ensures more { HasSeenMore seat.old seat.new }
        ensures shown { ShowsLife S.config S.cluster result.life result.tenant seat.new.history }
    {
        seat.hear(cluster, &mut self.witness);
        self.resident
    }
}

// Returns the first tenant with this token, and lets a seat see whose life that is.
#[tactic(auto, using(crate::proofs::Admitted::seen_the_same))]
fn greet<S: Site>(
    all: &mut Vec<Entered<S>>,
    cluster: &Cluster<HostedNode>,
    seat: &mut ServiceSeat<HostedNode>,
    token: &[u8; 16],
) -> Option<Resident>
    requires site { cluster.now ≡ S.cluster }
    requires seat { IsSeatOf cluster.now seat.old }
    ensures found { IfSome result (λ resident. resident.tenant.token ≡ token.now) }
    ensures seat { IsSeatOf cluster.now seat.new }
    ensures more { HasSeenMore seat.old seat.new }
    ensures shown { IfSome result (λ resident. ShowsLife S.config S.cluster resident.life
        resident.tenant seat.new.history) }
{
    match place_of_token(all.as_slice(), token) {
        Some(place) => Some(all[place].show(cluster, seat)),
        None => None,
    }
}

impl<S: Site> Residents<S> {
    /// Returns the tenants of a configuration, in their slots' lives 0.
    pub(crate) fn of(
        alloc: Global,
        config: &Config,
        cluster: &Cluster<HostedNode>,
        seat: &mut ServiceSeat<HostedNode>,
    ) -> Result<Self, AllocError>
        requires config { config.now ≡ S.config }
        requires site { cluster.now ≡ S.cluster }
        requires seat { IsSeatOf cluster.now seat.old }
        ensures seat { seat.new ≡ seat.old }
    {
        let mut all = Vec::with_capacity(alloc, MOST_RESIDENTS)?;
        let tenants = config.tenants.as_slice();
        for place in 0..tenants.len() {
            let life = Life {
                slot: place as u64,
                number: 0,
            };
            let tenant = tenants[place];
            let entered = Entered {
                resident: Resident { life, tenant },
                witness: seat.witness(cluster),
                site: PhantomData,
            };
            enter(&mut all, entered);
        }
        Ok(Residents {
            entered: Mutex::new(all),
            departures: AtomicU64::new(0),
        })
    }

    /// Enters a tenant that all nodes have, as the seat has seen.
    pub(crate) fn enter<R: Wait>(
        &self,
        rt: &R,
        cluster: &Cluster<HostedNode>,
        seat: &mut ServiceSeat<HostedNode>,
        resident: Resident,
    )
        requires site { cluster.now ≡ S.cluster }
        requires seat { IsSeatOf cluster.now seat.old }
        requires shown { ShowsLife S.config S.cluster resident.life resident.tenant
            seat.old.history }
        ensures seat { seat.new ≡ seat.old }
    {
        let entered = Entered {
            resident,
            witness: seat.witness(cluster),
            site: PhantomData,
        };
        enter(&mut self.entered.lock(rt), entered);
    }

    /// Removes the tenant of this name.
    pub(crate) fn leave<R: Wait>(&self, rt: &R, name: &[u8]) {
        self.entered
            .lock(rt)
            .retain(|entered| entered.resident.tenant.name.bytes() != name);
        self.departures.fetch_add(1, Ordering::SeqCst);
    }

    /// Returns the number of tenants that have left. While it stays the same, all residents stay.
    pub(crate) fn departures(&self) -> u64 {
        self.departures.load(Ordering::SeqCst)
    }

    /// Returns `true` if a tenant is here in this life.
    pub(crate) fn have<R: Wait>(&self, rt: &R, life: Life) -> bool {
        is_among(self.entered.lock(rt).as_slice(), life)
    }

    /// Returns the tenant with this token, and lets a seat see that the life is the tenant's.
    pub(crate) fn greet<R: Wait>(
        &self,
        rt: &R,
        cluster: &Cluster<HostedNode>,
        seat: &mut ServiceSeat<HostedNode>,
        token: &[u8; 16],
    ) -> Option<Resident>
        requires site { cluster.now ≡ S.cluster }
        requires seat { IsSeatOf cluster.now seat.old }
        ensures found { IfSome result (λ resident. resident.tenant.token ≡ token.now) }
        ensures seat { IsSeatOf cluster.now seat.new }
        ensures more { HasSeenMore seat.old seat.new }
        ensures shown { IfSome result (λ resident. ShowsLife S.config S.cluster resident.life
            resident.tenant seat.new.history) }
    {
        greet(&mut self.entered.lock(rt), cluster, seat, token)
    }
}
