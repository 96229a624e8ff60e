use kinds::Kind;
use listeners::Listener;
use talkers::Talker;

mod making;

/// A talker and two listeners on one plan.
#[derive(Drop)]
pub struct Trio<K: Kind, M> {
    pub talker: Talker<K, M>,
    pub first: Listener<K>,
    pub second: Listener<K>,
}
