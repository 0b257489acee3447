//! Graphs of scripts.

/// The graph of one input, one sink and an edge between them.
pub const LINE: &str =
    r#"{"vertices":[{"name":"a","op":"input","depth":0},{"name":"z","op":"sink","depth":0}],"edges":[{"name":"az","from":"a","port":0,"to":"z","route":"local"}]}"#;

/// The graph of an input, a vertex that holds capabilities, and a sink in a row.
pub const HELD: &str =
    r#"{"vertices":[{"name":"a","op":"input","depth":0},{"name":"h","op":"hold","depth":0},{"name":"z","op":"sink","depth":0}],"edges":[{"name":"ah","from":"a","port":0,"to":"h","route":"local"},{"name":"hz","from":"h","port":0,"to":"z","route":"local"}]}"#;

/// The reply to the line of [`LINE`], on one processor.
pub const LINE_REPLY: &str = "{\"locations\":3,\"ok\":true,\"processors\":1}\n";
