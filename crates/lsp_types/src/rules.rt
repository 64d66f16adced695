//! The rules of a session, by their numbers. Where several apply, the least is reported.

// Base Protocol.

/// The first 4,096 bytes of a header part do not contain its end.
pub const HEADER_PART_TOO_LONG: u16 = 101;

/// A line of a header part is not a `name: value` line.
pub const BAD_HEADER_LINE: u16 = 102;

/// A header part has no `Content-Length`, or more than one.
pub const NOT_ONE_CONTENT_LENGTH: u16 = 103;

/// The value of `Content-Length` is not 1 to 10 decimal digits.
pub const BAD_CONTENT_LENGTH: u16 = 104;

/// A content is longer than its limit.
pub const CONTENT_TOO_LONG: u16 = 105;

/// A charset other than UTF-8 is named.
pub const CHARSET_NOT_UTF_8: u16 = 106;

/// A stream ends inside a frame.
pub const STREAM_ENDS_INSIDE_FRAME: u16 = 107;

// JSON-RPC 2.0 messages.

/// A content is not JSON.
pub const CONTENT_NOT_JSON: u16 = 201;

/// The JSON value is not an object.
pub const MESSAGE_NOT_OBJECT: u16 = 202;

/// `jsonrpc` is missing or is not `"2.0"`.
pub const BAD_JSONRPC_VERSION: u16 = 203;

/// `method` is present and is not a string.
pub const METHOD_NOT_STRING: u16 = 204;

/// `id` is not an integer, a string, or null in a response.
pub const BAD_ID: u16 = 205;

/// `params` is not an array, an object or null.
pub const BAD_PARAMS: u16 = 206;

/// Without a method, there is no `id`, or not exactly one of `result` and `error`.
pub const NOT_A_MESSAGE: u16 = 207;

/// `error` has no integer `code` or no string `message`.
pub const BAD_ERROR_OBJECT: u16 = 208;

/// The params of a method that is read do not have the shape that LSP 3.17 requires.
pub const BAD_METHOD_PARAMS: u16 = 209;

// Requests (JSON-RPC 2.0).

/// A response whose id is that of no open request.
pub const RESPONSE_TO_NO_OPEN_REQUEST: u16 = 301;

/// A request with the id of an open request of its side.
pub const ID_ALREADY_OPEN: u16 = 302;

/// In a session that must be complete, a request of the editor has no response.
pub const REQUEST_NOT_ANSWERED: u16 = 303;

// Lifecycle (LSP 3.17, "Server lifecycle").

/// The editor sends a message before `initialize`.
pub const EDITOR_BEFORE_INITIALIZE: u16 = 401;

/// The editor sends a message before the answer to `initialize`.
pub const EDITOR_WHILE_INITIALIZE_OPEN: u16 = 402;

/// The editor sends another message between that answer and `initialized`.
pub const INITIALIZED_NOT_FIRST: u16 = 403;

/// A second `initialize` or `initialized`.
pub const INITIALIZE_AGAIN: u16 = 404;

/// The editor sends a message other than `exit` after `shutdown`.
pub const EDITOR_AFTER_SHUTDOWN: u16 = 405;

/// The editor sends a message after `exit`.
pub const EDITOR_AFTER_EXIT: u16 = 406;

/// In a session that must be complete, there is no `exit`.
pub const EXIT_MISSING: u16 = 407;

/// The server sends a message before `initialize`.
pub const SERVER_BEFORE_INITIALIZE: u16 = 411;

/// The server sends a message that must wait for its answer to `initialize`.
pub const SERVER_WHILE_INITIALIZE_OPEN: u16 = 412;

// Negotiation (LSP 3.17, "Initialize Request").

/// The result of `initialize` does not have its shape.
pub const BAD_INITIALIZE_RESULT: u16 = 501;

/// The server picks an encoding that was not offered.
pub const ENCODING_NOT_OFFERED: u16 = 502;

/// The encoding that was picked is none of UTF-8, UTF-16 and UTF-32.
pub const ENCODING_OUTSIDE_PROFILE: u16 = 503;

/// The server registers text synchronisation dynamically.
pub const DYNAMIC_REGISTRATION: u16 = 504;

// Documents (LSP 3.17, "Text Document Synchronization").

/// The first rule on documents: 601 and greater ones are about documents and snapshots.
pub const FIRST_ON_DOCUMENTS: u16 = 601;

/// `didOpen` of a URI that is open.
pub const DOCUMENT_ALREADY_OPEN: u16 = 601;

/// `didChange` or `didClose` of a URI that is not open.
pub const DOCUMENT_NOT_OPEN: u16 = 602;

/// `didChange` to a version that is not greater than the held one.
pub const VERSION_DOES_NOT_RISE: u16 = 603;

/// `didChange` with changes that are not of the agreed kind.
pub const CHANGE_NOT_OF_KIND: u16 = 604;

/// A column is not at the boundary of a character.
pub const POSITION_INSIDE_CHARACTER: u16 = 605;

/// A range ends before it starts.
pub const RANGE_REVERSED: u16 = 606;

/// A text of more bytes of UTF-8 than the limit.
pub const DOCUMENT_OVER_LIMIT: u16 = 607;

/// `didSave` with a text that is not the held one.
pub const SAVED_TEXT_DIFFERS: u16 = 608;

// Snapshots.

/// A snapshot of a lesser version than the held one and each kept one.
pub const LATE_SNAPSHOT: u16 = 701;

/// A snapshot of another text than the one held at its version.
pub const SNAPSHOT_DIFFERS: u16 = 702;
