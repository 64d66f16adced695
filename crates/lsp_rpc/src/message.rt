//! Messages and their ids (JSON-RPC 2.0, sections 4 and 5).
use serde_json::Value;

/// The id of a request. The number 1 and the text `1` are different ids (JSON-RPC 2.0, section 4).
#[derive(Clone, Debug, Drop, PartialEq, Eq, Hash)]
pub enum Id {
    Number(i32),
    Text(String),
}

/// What a response carries: a result, or an error with its code (JSON-RPC 2.0, sections 5 and 5.1).
#[derive(Debug, Drop)]
pub enum Answer {
    Result(Value),
    Error { code: i32 },
}

/// A request, a notification or a response (JSON-RPC 2.0, sections 4, 4.1 and 5).
#[derive(Debug, Drop)]
pub enum Message {
    /// A call that asks for a response. `params` is `None` if they are missing or null.
    Request {
        id: Id,
        method: String,
        params: Option<Value>,
    },
    /// A call without an id, which gets no response. `params` as in a request.
    Notification {
        method: String,
        params: Option<Value>,
    },
    /// The response to a request. `id` is `None` if it is null.
    Response {
        id: Option<Id>,
        answer: Answer,
    },
}
