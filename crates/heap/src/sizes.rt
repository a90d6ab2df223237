// The lengths of a heap's two buffers: what 8 is judged by, in every call, in a run and in a replay.
ghost use Rattle.std.specs.Prelude.{◌≡◌, ◌≤◌};
ghost use Rattle.blocks.specs.Orders.{unless_zero};
ghost use Rattle.heap.specs.Inner.{heap_order};

// The order of a heap with these buffers and slots of 2^t bytes, if the lengths fit each other and are those of a heap. The smallest arena, of 2^5 bytes,
// has at least one slot.
pub fn order_of(arena: &[u8], table: &[u8], t: u32) -> Option<u32>
    requires { t ≤ 5 }
    ensures { result ≡ unless_zero (heap_order t arena.now table.now) }
{
    if arena.len() >> t != table.len() {
        return None;
    }
    blocks::order_of(arena.len())
}
