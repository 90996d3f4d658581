// The routes that bear on a message. Whoever keeps a station looks their records up himself, which copies nothing of
// it, by `route_numbers`, `station::route_index` and `by_records`; `routes_concerned` does so with a station that it
// is given.
ghost use Rattle.std.specs.Prelude.{◌≡◌};
ghost use Rattle.rules.specs.Routes.{concerned, route_numbers, by_records};

use super::{Concerned, RouteNumbers};
use message::Message;
use station::{Route, Station, route_by, route_index};
use zone::Zone;
use zone::movements::route_number;
use zone::trains::movement_under;

// The numbers of the routes that bear on a message.
pub fn route_numbers(z: Zone, m: Message) -> RouteNumbers
    ensures { result ≡ route_numbers z m }
{
    RouteNumbers {
        asked: m.d0,
        its: route_number(movement_under(z, m.id)),
    }
}

// Both routes by their records, of a station that has so many.
pub fn by_records(count: u8, n: RouteNumbers, asked: Route, its: Route) -> Concerned
    ensures { result ≡ by_records count n asked its }
{
    Concerned {
        asked: route_by(count, n.asked, asked),
        its: route_by(count, n.its, its),
    }
}

// The routes that bear on a message heard by the zone.
pub fn routes_concerned(st: Station, z: Zone, m: Message) -> Concerned
    ensures { result ≡ concerned st z m }
{
    let n = route_numbers(z, m);
    let asked = st.route[route_index(n.asked)];
    let its = st.route[route_index(n.its)];
    by_records(st.routes, n, asked, its)
}
