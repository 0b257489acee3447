//! The limits of the program. Contracts cite them by their names in `specs/Limits.antt`, and
//! `limits_are_fixed` states the number of each.

ghost use Rattle.std.specs.Prelude.{◌≡◌};
ghost use Rattle.nd_time.specs.Limits.{max_depth, max_depth_v1, max_locations, max_locations_v8, max_locations_v5, max_ports};
ghost use Rattle.nd_time.specs.Limits.{max_name, max_name_v8, least_of_name, least_of_name_v8, greatest_of_name};
ghost use Rattle.nd_time.specs.Limits.{max_processors, max_processors_v8, max_processors_v1};
ghost use Rattle.nd_time.specs.Limits.{max_count, max_counter, max_values, max_queue, max_kept, max_breaks, max_literals};
ghost use Rattle.nd_time.specs.Limits.{max_log, max_clients, max_workers, piece_length, max_reached};
ghost use Rattle.nd_time.specs.Limits.{max_line, max_graph_line, max_input, max_told};

/// The greatest depth of nested loops.
pub const MAX_DEPTH: usize = 6;

/// The greatest depth in a graph of version 1.
pub const MAX_DEPTH_V1: usize = 4;

/// The most locations of a graph.
pub const MAX_LOCATIONS: usize = 4096;

/// The most locations of a graph in a script of a version before 9.
pub const MAX_LOCATIONS_V8: usize = 256;

/// The most locations of a graph in a script of a version before 6.
pub const MAX_LOCATIONS_V5: usize = 64;

/// The most output ports of an opaque vertex.
pub const MAX_PORTS: u32 = 16;

/// The greatest length of a name in bytes.
pub const MAX_NAME: usize = 128;

/// The greatest length of a name in bytes in a script of a version before 9.
pub const MAX_NAME_V8: usize = 32;

/// The most processors of a cluster.
pub const MAX_PROCESSORS: usize = 64;

/// The most processors of a cluster in a script of the versions 2 to 8.
pub const MAX_PROCESSORS_V8: usize = 16;

/// The most processors of a cluster in a script of version 1.
pub const MAX_PROCESSORS_V1: usize = 8;

/// The greatest count of a record or of a sink, and the greatest absolute value of an entry of a change or of a view.
pub const MAX_COUNT: u64 = 1_099_511_627_776;

/// The most values in one feed.
pub const MAX_VALUES: usize = 1024;

/// The most changes in one queue.
pub const MAX_QUEUE: usize = 65_536;

/// The most kept steps.
pub const MAX_KEPT: usize = 1_000_000;

/// The most breakpoints that are set at once.
pub const MAX_BREAKS: usize = 32;

/// The most literals in one condition.
pub const MAX_LITERALS: usize = 8;

/// The most commands that a session logs.
pub const MAX_LOG: usize = 1_000_000;

/// The most clients over a session's life.
pub const MAX_CLIENTS: u64 = 64;

/// The most workers of a search. A search that asks for more starts this many.
pub const MAX_WORKERS: u64 = 64;

/// The number of positions in one piece of a search.
pub const PIECE_LENGTH: u64 = 16;

/// The most states that are looked at to reach a condition.
pub const MAX_REACHED: u64 = 1_000_000;

/// The greatest length of a line in bytes, without its newline.
pub const MAX_LINE: usize = 65_536;

/// The greatest length of the graph's line in bytes, without its newline.
pub const MAX_GRAPH_LINE: usize = 2_097_152;

/// The greatest length of a script in bytes.
pub const MAX_INPUT: usize = 268_435_456;

/// The most elements of a list in one reply: changes of a view, candidates, or turns of a condition.
pub const MAX_TOLD: usize = 1_000;

/// States the number of each limit. The function has no code; its clauses refuse any other number in a constant.
pub fn limits_are_fixed()
    ensures depth { max_depth ≡ 6 }
    ensures depth_v1 { max_depth_v1 ≡ 4 }
    ensures locations { max_locations ≡ 4096 }
    ensures locations_v8 { max_locations_v8 ≡ 256 }
    ensures locations_v5 { max_locations_v5 ≡ 64 }
    ensures ports { max_ports ≡ 16 }
    ensures name { max_name ≡ 128 }
    ensures name_v8 { max_name_v8 ≡ 32 }
    ensures name_from { least_of_name ≡ 32 }
    ensures name_from_v8 { least_of_name_v8 ≡ 33 }
    ensures name_to { greatest_of_name ≡ 126 }
    ensures processors { max_processors ≡ 64 }
    ensures processors_v8 { max_processors_v8 ≡ 16 }
    ensures processors_v1 { max_processors_v1 ≡ 8 }
    ensures count { max_count ≡ 1099511627776 }
    ensures counter { max_counter ≡ 4294967295 }
    ensures values { max_values ≡ 1024 }
    ensures queue { max_queue ≡ 65536 }
    ensures kept { max_kept ≡ 1000000 }
    ensures breaks { max_breaks ≡ 32 }
    ensures literals { max_literals ≡ 8 }
    ensures log { max_log ≡ 1000000 }
    ensures clients { max_clients ≡ 64 }
    ensures workers { max_workers ≡ 64 }
    ensures piece { piece_length ≡ 16 }
    ensures reached { max_reached ≡ 1000000 }
    ensures line { max_line ≡ 65536 }
    ensures graph_line { max_graph_line ≡ 2097152 }
    ensures input { max_input ≡ 268435456 }
    ensures told { max_told ≡ 1000 }
{}
