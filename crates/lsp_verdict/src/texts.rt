//! The fixed texts of the rules and of the faults of a log.
ghost use Rattle.std.specs.Prelude.{◌≡◌};
ghost use Rattle.lsp_verdict.specs.Texts.{session_texts, text_among, text_of, code_name, code_text};

use lsp_log::LogCode;
use lsp_types::rules;

/// The text of a rule in a report, empty if the rule has none.
pub(crate) fn text_of(rule: u16) -> &'static str
    ensures { result.now ≡ text_of rule }
{
    match rule {
        rules::HEADER_PART_TOO_LONG => "header part too long",
        rules::BAD_HEADER_LINE => "bad header line",
        rules::NOT_ONE_CONTENT_LENGTH => "not exactly one Content-Length",
        rules::BAD_CONTENT_LENGTH => "bad Content-Length number",
        rules::CONTENT_TOO_LONG => "content too long",
        rules::CHARSET_NOT_UTF_8 => "charset is not utf-8",
        rules::STREAM_ENDS_INSIDE_FRAME => "stream ends inside a frame",
        rules::CONTENT_NOT_JSON => "content is not JSON",
        rules::MESSAGE_NOT_OBJECT => "message is not an object",
        rules::BAD_JSONRPC_VERSION => "jsonrpc is not \"2.0\"",
        rules::METHOD_NOT_STRING => "method is not a string",
        rules::BAD_ID => "bad id",
        rules::BAD_PARAMS => "bad params",
        rules::NOT_A_MESSAGE => "not a request, notification or response",
        rules::BAD_ERROR_OBJECT => "bad error object",
        rules::BAD_METHOD_PARAMS => "bad params of an interpreted method",
        _ => session_text(rule),
    }
}

/// The text of a rule about messages in their order.
fn session_text(rule: u16) -> &'static str
    ensures { result.now ≡ text_among session_texts rule }
{
    match rule {
        rules::RESPONSE_TO_NO_OPEN_REQUEST => "response to no open request",
        rules::ID_ALREADY_OPEN => "id is already open",
        rules::REQUEST_NOT_ANSWERED => "request is not answered",
        rules::EDITOR_BEFORE_INITIALIZE => "editor message before initialize",
        rules::EDITOR_WHILE_INITIALIZE_OPEN => "editor message while initialize is open",
        rules::INITIALIZED_NOT_FIRST => "initialized does not come first",
        rules::INITIALIZE_AGAIN => "initialize or initialized again",
        rules::EDITOR_AFTER_SHUTDOWN => "editor message after shutdown",
        rules::EDITOR_AFTER_EXIT => "editor message after exit",
        rules::EXIT_MISSING => "exit is missing",
        rules::SERVER_BEFORE_INITIALIZE => "server message before initialize",
        rules::SERVER_WHILE_INITIALIZE_OPEN => "server message while initialize is open",
        rules::BAD_INITIALIZE_RESULT => "bad initialize result",
        rules::ENCODING_NOT_OFFERED => "encoding was not offered",
        rules::ENCODING_OUTSIDE_PROFILE => "encoding outside the profile",
        rules::DYNAMIC_REGISTRATION => "dynamic registration of synchronisation",
        rules::DOCUMENT_ALREADY_OPEN => "document is already open",
        rules::DOCUMENT_NOT_OPEN => "document is not open",
        rules::VERSION_DOES_NOT_RISE => "version does not rise",
        rules::CHANGE_NOT_OF_KIND => "change does not fit the sync kind",
        rules::POSITION_INSIDE_CHARACTER => "position inside a character",
        rules::RANGE_REVERSED => "range is reversed",
        rules::DOCUMENT_OVER_LIMIT => "document over the limit",
        rules::SAVED_TEXT_DIFFERS => "saved text differs",
        rules::LATE_SNAPSHOT => "late snapshot",
        rules::SNAPSHOT_DIFFERS => "snapshot differs",
        _ => "",
    }
}

/// The code of a fault of a log in a report, `L1` to `L6`.
pub(crate) fn code_name(code: LogCode) -> &'static str
    ensures { result.now ≡ code_name code }
{
    match code {
        LogCode::L1 => "L1",
        LogCode::L2 => "L2",
        LogCode::L3 => "L3",
        LogCode::L4 => "L4",
        LogCode::L5 => "L5",
        LogCode::L6 => "L6",
    }
}

/// The text of a fault of a log in a report.
pub(crate) fn code_text(code: LogCode) -> &'static str
    ensures { result.now ≡ code_text code }
{
    match code {
        LogCode::L1 => "bad first line",
        LogCode::L2 => "bad record line",
        LogCode::L3 => "size out of range",
        LogCode::L4 => "record cut short or its line end missing",
        LogCode::L5 => "snapshot is not UTF-8",
        LogCode::L6 => "log too long",
    }
}
