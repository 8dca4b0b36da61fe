// The cards breadth first from card 0, each with its hops from there and its entries. Nothing is claimed of them.
use crate::lists::Lists;
use arrayvec::ArrayVec;
use rack::limits::MOST_CARDS;
use rack::views::SizedFile;

// The lists of all cards, the cards that are met, and of each card its hops, none where it is not met.
#[derive(Drop)]
pub struct Breadth {
    pub lists: Lists,
    queue: ArrayVec<u8, MOST_CARDS>,
    hops: [Option<u8>; MOST_CARDS],
}

impl Breadth {
    ghost use Rattle.std.specs.Prelude.{◌≤◌, length};
    ghost use Rattle.rack.specs.Limits.{most_cards};

    // No card is listed or met; made so and filled in place, as the lists are.
    pub fn empty() -> Self {
        Breadth {
            lists: Lists::empty(),
            queue: ArrayVec::new(),
            hops: [None; MOST_CARDS],
        }
    }

    // The cards that are met, in the order of their hops.
    pub fn cards(&self) -> &[u8]
        ensures { length result.now ≤ most_cards }
    {
        self.queue.as_slice()
    }

    // The hops of a card.
    pub fn hops_of(&self, card: u8) -> Option<u8> {
        self.hops[usize::from(card)]
    }

    // Lists the links of a file, and meets all cards to which they lead from card 0, each once, so that there is room. Nothing is listed or
    // met at entry.
    pub fn meet_all(&mut self, file: SizedFile<'_>) {
        self.lists.list_all(file);
        self.hops[0] = Some(0);
        let _ = self.queue.try_push(0);
        for head in 0..MOST_CARDS {
            let Some(&card) = self.cards().get(head) else {
                return;
            };
            let further = self.hops_of(card).map_or(0, |hops| hops.saturating_add(1));
            for entry in self.lists.entries_of(card) {
                let hops = &mut self.hops[usize::from(entry.card)];
                if hops.is_none() {
                    *hops = Some(further);
                    let _ = self.queue.try_push(entry.card);
                }
            }
        }
    }
}
