// What a wiring file is before it has addresses. Each stage refuses, or hands on what the next one needs; the lent bytes, a row of 256 for
// each card, serve them all in turn.
//
// Sizes and links, 2 to 8: the links are looked at once, in rising order; a mark for each pair of cards counts those that join it.
// Cards reached, 9: card 0 is flagged, and flags spread over the links until a pass over all of them flags no card.
// Hops: a row holds upper bounds of the hops from its card, at first one less than there are cards, and 0 to the card itself. A link allows
// the rows of its ends to differ by one, so each is lowered to one more than the other, until a pass over all links lowers none; bounds
// that no link lowers are hops. This is relaxation, as Bellman and Ford do it from one card, here from all cards at once: a step lowers a
// row of bytes, many in one instruction. The links are taken breadth first from card 0, back and forth, which saves rounds and decides
// nothing.
// Odd loops, 10: in a rack without one every link joins a card of even hops from card 0 with one of odd hops, so a link whose ends have
// equal hops closes an odd loop, and without such a link there is none (König).
#![tactic(auto)]

pub mod hops;
pub mod links;
pub mod measured;
pub mod ordered;
pub mod reach;
