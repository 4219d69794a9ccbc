//! The rows of sessions: what a client sends, what its backends answer, and what comes of it.

use crate::end::Why;

/// What a link brings, one after another; behind it the link ends.
pub(crate) enum Comes {
    Text(&'static [u8]),
    Tick,
    Fails,
}

/// A link, and how many bytes each of its writes takes: 0 fails, and past the list each takes all.
pub(crate) struct Link {
    pub(crate) comes: &'static [Comes],
    pub(crate) takes: &'static [u32],
}

/// What was done before the session: nothing, the gate was shut, or the base of the contexts was cancelled.
#[derive(Clone, Copy)]
pub(crate) enum Before {
    Nothing,
    Shut,
    Cancelled,
}

/// A session. From so many acts on the clock is so many milliseconds later. The last backend that was dialed is written
/// `to_backend`.
pub(crate) struct Row {
    pub(crate) name: &'static str,
    pub(crate) file: &'static str,
    pub(crate) before: Before,
    pub(crate) client: Link,
    pub(crate) backends: &'static [Link],
    pub(crate) late_from: u64,
    pub(crate) late_ms: u64,
    pub(crate) to_client: &'static [u8],
    pub(crate) to_backend: &'static [u8],
    pub(crate) dials: u32,
    pub(crate) why: Why,
    pub(crate) begun: u32,
}

pub(crate) const ROWS: [Row; 20] = [
    Row {
        name: "one_get",
        file: "{\"listen\":\"127.0.0.1:8080\",\"routes\":[{\"pattern\":\"/\",\"backend\":\"http://127.0.0.1:9000\"}]}",
        before: Before::Nothing,
        client: Link {
            comes: &[Comes::Text(b"GET / HTTP/1.1\r\nHost: example.com\r\n\r\n")],
            takes: &[],
        },
        backends: &[Link {
            comes: &[Comes::Text(b"HTTP/1.1 200 OK\r\nContent-Length: 3\r\n\r\nhi\n")],
            takes: &[],
        }],
        late_from: 64,
        late_ms: 0,
        to_client: b"HTTP/1.1 200 OK\r\nContent-Length: 3\r\nDate: Sun, 06 Nov 1994 08:49:37 GMT\r\n\r\nhi\n",
        to_backend: b"GET / HTTP/1.1\r\nHost: example.com\r\nX-Forwarded-For: 10.0.0.7\r\n\r\n",
        dials: 1,
        why: Why::End,
        begun: 1,
    },
    Row {
        name: "options_star",
        file: "{\"listen\":\"127.0.0.1:8080\",\"routes\":[{\"pattern\":\"/\",\"backend\":\"http://127.0.0.1:9000\"}]}",
        before: Before::Nothing,
        client: Link {
            comes: &[Comes::Text(b"OPTIONS * HTTP/1.1\r\nHost: a\r\n\r\n")],
            takes: &[],
        },
        backends: &[],
        late_from: 64,
        late_ms: 0,
        to_client: b"HTTP/1.1 200 OK\r\nContent-Length: 0\r\nDate: Sun, 06 Nov 1994 08:49:37 GMT\r\n\r\n",
        to_backend: b"",
        dials: 0,
        why: Why::End,
        begun: 1,
    },
    Row {
        name: "length_and_coding",
        file: "{\"listen\":\"127.0.0.1:8080\",\"routes\":[{\"pattern\":\"/\",\"backend\":\"http://127.0.0.1:9000\"}]}",
        before: Before::Nothing,
        client: Link {
            comes: &[Comes::Text(
                b"POST / HTTP/1.1\r\nHost: a\r\nContent-Length: 3\r\nTransfer-Encoding: chunked\r\n\r\nGET / HTTP/1.1\r\nHost: example.com\r\n\r\n",
            )],
            takes: &[],
        },
        backends: &[],
        late_from: 64,
        late_ms: 0,
        to_client: b"HTTP/1.1 400 Bad Request\r\nConnection: close\r\nContent-Length: 16\r\nDate: Sun, 06 Nov 1994 08:49:37 GMT\r\n\r\n400 Bad Request\n",
        to_backend: b"",
        dials: 0,
        why: Why::BadRequest,
        begun: 1,
    },
    Row {
        name: "expectation",
        file: "{\"listen\":\"127.0.0.1:8080\",\"routes\":[{\"pattern\":\"/\",\"backend\":\"http://127.0.0.1:9000\"}]}",
        before: Before::Nothing,
        client: Link {
            comes: &[Comes::Text(
                b"POST / HTTP/1.1\r\nHost: a\r\nContent-Length: 2\r\nExpect: gift\r\n\r\n",
            )],
            takes: &[],
        },
        backends: &[],
        late_from: 64,
        late_ms: 0,
        to_client: b"HTTP/1.1 417 Expectation Failed\r\nConnection: close\r\nContent-Length: 23\r\nDate: Sun, 06 Nov 1994 08:49:37 GMT\r\n\r\n417 Expectation Failed\n",
        to_backend: b"",
        dials: 0,
        why: Why::BadRequest,
        begun: 1,
    },
    Row {
        name: "hop_by_hop",
        file: "{\"listen\":\"127.0.0.1:8080\",\"routes\":[{\"pattern\":\"/\",\"backend\":\"http://127.0.0.1:9000\"}]}",
        before: Before::Nothing,
        client: Link {
            comes: &[Comes::Text(
                b"GET / HTTP/1.1\r\nHost: example.com\r\nConnection: X-Secret, close\r\nX-Secret: 1\r\nTE: gzip, trailers\r\nKeep-Alive: 5\r\nX-Forwarded-For: 1.2.3.4\r\n\r\n",
            )],
            takes: &[],
        },
        backends: &[Link {
            comes: &[Comes::Text(b"HTTP/1.1 200 OK\r\nContent-Length: 3\r\n\r\nhi\n")],
            takes: &[],
        }],
        late_from: 64,
        late_ms: 0,
        to_client: b"HTTP/1.1 200 OK\r\nConnection: close\r\nContent-Length: 3\r\nDate: Sun, 06 Nov 1994 08:49:37 GMT\r\n\r\nhi\n",
        to_backend: b"GET / HTTP/1.1\r\nHost: example.com\r\nTe: trailers\r\nX-Forwarded-For: 1.2.3.4, 10.0.0.7\r\n\r\n",
        dials: 1,
        why: Why::Asked,
        begun: 1,
    },
    Row {
        name: "old_client",
        file: "{\"listen\":\"127.0.0.1:8080\",\"routes\":[{\"pattern\":\"/\",\"backend\":\"http://127.0.0.1:9000\"}]}",
        before: Before::Nothing,
        client: Link {
            comes: &[Comes::Text(
                b"GET / HTTP/1.0\r\n\r\nGET / HTTP/1.1\r\nHost: example.com\r\n\r\n",
            )],
            takes: &[],
        },
        backends: &[Link {
            comes: &[Comes::Text(
                b"HTTP/1.1 200 OK\r\nTransfer-Encoding: chunked\r\n\r\n2\r\nok\r\n0\r\n\r\n",
            )],
            takes: &[],
        }],
        late_from: 64,
        late_ms: 0,
        to_client: b"HTTP/1.0 200 OK\r\nConnection: close\r\nDate: Sun, 06 Nov 1994 08:49:37 GMT\r\n\r\nok",
        to_backend: b"GET / HTTP/1.1\r\nHost: 127.0.0.1:9000\r\nX-Forwarded-For: 10.0.0.7\r\n\r\n",
        dials: 1,
        why: Why::Old,
        begun: 1,
    },
    Row {
        name: "continue",
        file: "{\"listen\":\"127.0.0.1:8080\",\"routes\":[{\"pattern\":\"/\",\"backend\":\"http://127.0.0.1:9000\"}]}",
        before: Before::Nothing,
        client: Link {
            comes: &[
                Comes::Text(
                    b"POST / HTTP/1.1\r\nHost: example.com\r\nContent-Length: 2\r\nExpect: 100-continue\r\n\r\n",
                ),
                Comes::Text(b"ok"),
            ],
            takes: &[],
        },
        backends: &[Link {
            comes: &[Comes::Text(b"HTTP/1.1 204 No Content\r\n\r\n")],
            takes: &[],
        }],
        late_from: 64,
        late_ms: 0,
        to_client: b"HTTP/1.1 100 Continue\r\n\r\nHTTP/1.1 204 No Content\r\nDate: Sun, 06 Nov 1994 08:49:37 GMT\r\n\r\n",
        to_backend: b"POST / HTTP/1.1\r\nHost: example.com\r\nContent-Length: 2\r\nX-Forwarded-For: 10.0.0.7\r\n\r\nok",
        dials: 1,
        why: Why::End,
        begun: 1,
    },
    Row {
        name: "chunked_upload",
        file: "{\"listen\":\"127.0.0.1:8080\",\"routes\":[{\"pattern\":\"/\",\"backend\":\"http://127.0.0.1:9000\"}]}",
        before: Before::Nothing,
        client: Link {
            comes: &[
                Comes::Text(
                    b"POST /up HTTP/1.1\r\nHost: example.com\r\nTransfer-Encoding: chunked\r\n\r\n4;x=y\r\nWi",
                ),
                Comes::Text(b"ki\r\n5\r\npedia\r\n0\r\nT: 1\r\n\r\n"),
            ],
            takes: &[],
        },
        backends: &[Link {
            comes: &[Comes::Text(b"HTTP/1.1 204 No Content\r\n\r\n")],
            takes: &[],
        }],
        late_from: 64,
        late_ms: 0,
        to_client: b"HTTP/1.1 204 No Content\r\nDate: Sun, 06 Nov 1994 08:49:37 GMT\r\n\r\n",
        to_backend: b"POST /up HTTP/1.1\r\nHost: example.com\r\nTransfer-Encoding: chunked\r\nX-Forwarded-For: 10.0.0.7\r\n\r\n9\r\nWikipedia\r\n0\r\n\r\n",
        dials: 1,
        why: Why::End,
        begun: 1,
    },
    Row {
        name: "closed_before_reply",
        file: "{\"listen\":\"127.0.0.1:8080\",\"routes\":[{\"pattern\":\"/\",\"backend\":\"http://127.0.0.1:9000\"}]}",
        before: Before::Nothing,
        client: Link {
            comes: &[
                Comes::Text(b"GET / HTTP/1.1\r\nHost: example.com\r\n\r\n"),
                Comes::Text(b"GET / HTTP/1.1\r\nHost: example.com\r\n\r\n"),
            ],
            takes: &[],
        },
        backends: &[
            Link {
                comes: &[Comes::Text(b"HTTP/1.1 200 OK\r\nContent-Length: 3\r\n\r\nhi\n")],
                takes: &[],
            },
            Link {
                comes: &[Comes::Text(b"HTTP/1.1 200 OK\r\nContent-Length: 3\r\n\r\nhi\n")],
                takes: &[],
            },
        ],
        late_from: 64,
        late_ms: 0,
        to_client: b"HTTP/1.1 200 OK\r\nContent-Length: 3\r\nDate: Sun, 06 Nov 1994 08:49:37 GMT\r\n\r\nhi\nHTTP/1.1 200 OK\r\nContent-Length: 3\r\nDate: Sun, 06 Nov 1994 08:49:37 GMT\r\n\r\nhi\n",
        to_backend: b"GET / HTTP/1.1\r\nHost: example.com\r\nX-Forwarded-For: 10.0.0.7\r\n\r\n",
        dials: 2,
        why: Why::End,
        begun: 2,
    },
    Row {
        name: "not_sent_again",
        file: "{\"listen\":\"127.0.0.1:8080\",\"routes\":[{\"pattern\":\"/\",\"backend\":\"http://127.0.0.1:9000\"}]}",
        before: Before::Nothing,
        client: Link {
            comes: &[
                Comes::Text(b"GET / HTTP/1.1\r\nHost: example.com\r\n\r\n"),
                Comes::Text(b"POST / HTTP/1.1\r\nHost: example.com\r\nContent-Length: 2\r\n\r\nok"),
            ],
            takes: &[],
        },
        backends: &[Link {
            comes: &[Comes::Text(b"HTTP/1.1 200 OK\r\nContent-Length: 3\r\n\r\nhi\n")],
            takes: &[],
        }],
        late_from: 64,
        late_ms: 0,
        to_client: b"HTTP/1.1 200 OK\r\nContent-Length: 3\r\nDate: Sun, 06 Nov 1994 08:49:37 GMT\r\n\r\nhi\nHTTP/1.1 502 Bad Gateway\r\nContent-Length: 16\r\nDate: Sun, 06 Nov 1994 08:49:37 GMT\r\n\r\n502 Bad Gateway\n",
        to_backend: b"GET / HTTP/1.1\r\nHost: example.com\r\nX-Forwarded-For: 10.0.0.7\r\n\r\nPOST / HTTP/1.1\r\nHost: example.com\r\nContent-Length: 2\r\nX-Forwarded-For: 10.0.0.7\r\n\r\nok",
        dials: 1,
        why: Why::End,
        begun: 2,
    },
    Row {
        name: "nothing_written",
        file: "{\"listen\":\"127.0.0.1:8080\",\"routes\":[{\"pattern\":\"/\",\"backend\":\"http://127.0.0.1:9000\"}]}",
        before: Before::Nothing,
        client: Link {
            comes: &[
                Comes::Text(b"GET / HTTP/1.1\r\nHost: example.com\r\n\r\n"),
                Comes::Text(b"POST / HTTP/1.1\r\nHost: example.com\r\nContent-Length: 2\r\n\r\nok"),
            ],
            takes: &[],
        },
        backends: &[
            Link {
                comes: &[Comes::Text(b"HTTP/1.1 200 OK\r\nContent-Length: 3\r\n\r\nhi\n")],
                takes: &[65535, 0],
            },
            Link {
                comes: &[Comes::Text(b"HTTP/1.1 200 OK\r\nContent-Length: 3\r\n\r\nhi\n")],
                takes: &[],
            },
        ],
        late_from: 64,
        late_ms: 0,
        to_client: b"HTTP/1.1 200 OK\r\nContent-Length: 3\r\nDate: Sun, 06 Nov 1994 08:49:37 GMT\r\n\r\nhi\nHTTP/1.1 200 OK\r\nContent-Length: 3\r\nDate: Sun, 06 Nov 1994 08:49:37 GMT\r\n\r\nhi\n",
        to_backend: b"POST / HTTP/1.1\r\nHost: example.com\r\nContent-Length: 2\r\nX-Forwarded-For: 10.0.0.7\r\n\r\nok",
        dials: 2,
        why: Why::End,
        begun: 2,
    },
    Row {
        name: "truncated_reply",
        file: "{\"listen\":\"127.0.0.1:8080\",\"routes\":[{\"pattern\":\"/\",\"backend\":\"http://127.0.0.1:9000\"}]}",
        before: Before::Nothing,
        client: Link {
            comes: &[Comes::Text(b"GET / HTTP/1.1\r\nHost: example.com\r\n\r\n")],
            takes: &[],
        },
        backends: &[Link {
            comes: &[Comes::Text(b"HTTP/1.1 200 OK\r\nContent-Length: 10\r\n\r\nfour")],
            takes: &[],
        }],
        late_from: 64,
        late_ms: 0,
        to_client: b"HTTP/1.1 502 Bad Gateway\r\nContent-Length: 16\r\nDate: Sun, 06 Nov 1994 08:49:37 GMT\r\n\r\n502 Bad Gateway\n",
        to_backend: b"GET / HTTP/1.1\r\nHost: example.com\r\nX-Forwarded-For: 10.0.0.7\r\n\r\n",
        dials: 1,
        why: Why::End,
        begun: 1,
    },
    Row {
        name: "stop_route",
        file: "{\"listen\":\"127.0.0.1:8080\",\"routes\":[{\"pattern\":\"/stop\",\"stop\":true},{\"pattern\":\"/\",\"backend\":\"http://127.0.0.1:9000\"}]}",
        before: Before::Nothing,
        client: Link {
            comes: &[Comes::Text(
                b"GET /stop HTTP/1.1\r\nHost: example.com\r\n\r\nGET / HTTP/1.1\r\nHost: example.com\r\n\r\n",
            )],
            takes: &[],
        },
        backends: &[Link {
            comes: &[Comes::Text(b"HTTP/1.1 200 OK\r\nContent-Length: 3\r\n\r\nhi\n")],
            takes: &[],
        }],
        late_from: 64,
        late_ms: 0,
        to_client: b"HTTP/1.1 200 OK\r\nConnection: close\r\nContent-Length: 7\r\nDate: Sun, 06 Nov 1994 08:49:37 GMT\r\n\r\n200 OK\n",
        to_backend: b"",
        dials: 0,
        why: Why::Shut,
        begun: 1,
    },
    Row {
        name: "unread_body",
        file: "{\"listen\":\"127.0.0.1:8080\",\"routes\":[{\"pattern\":\"/a\",\"backend\":\"http://127.0.0.1:9000\"}]}",
        before: Before::Nothing,
        client: Link {
            comes: &[Comes::Text(
                b"POST /b HTTP/1.1\r\nHost: example.com\r\nContent-Length: 2\r\n\r\nokGET / HTTP/1.1\r\nHost: example.com\r\n\r\n",
            )],
            takes: &[],
        },
        backends: &[],
        late_from: 64,
        late_ms: 0,
        to_client: b"HTTP/1.1 404 Not Found\r\nConnection: close\r\nContent-Length: 14\r\nDate: Sun, 06 Nov 1994 08:49:37 GMT\r\n\r\n404 Not Found\n",
        to_backend: b"",
        dials: 0,
        why: Why::Unread,
        begun: 1,
    },
    Row {
        name: "deadline",
        file: "{\"listen\":\"127.0.0.1:8080\",\"routes\":[{\"pattern\":\"/\",\"backend\":\"http://127.0.0.1:9000\",\"timeout\":1000}]}",
        before: Before::Nothing,
        client: Link {
            comes: &[Comes::Text(b"GET / HTTP/1.1\r\nHost: example.com\r\n\r\n")],
            takes: &[],
        },
        backends: &[Link {
            comes: &[Comes::Tick],
            takes: &[],
        }],
        late_from: 3,
        late_ms: 1000,
        to_client: b"HTTP/1.1 504 Gateway Timeout\r\nContent-Length: 20\r\nDate: Sun, 06 Nov 1994 08:49:38 GMT\r\n\r\n504 Gateway Timeout\n",
        to_backend: b"GET / HTTP/1.1\r\nHost: example.com\r\nX-Forwarded-For: 10.0.0.7\r\n\r\n",
        dials: 1,
        why: Why::End,
        begun: 1,
    },
    Row {
        name: "shut_before_a_byte",
        file: "{\"listen\":\"127.0.0.1:8080\",\"routes\":[{\"pattern\":\"/\",\"backend\":\"http://127.0.0.1:9000\"}]}",
        before: Before::Shut,
        client: Link {
            comes: &[Comes::Text(b"GET / HTTP/1.1\r\nHost: example.com\r\n\r\n")],
            takes: &[],
        },
        backends: &[],
        late_from: 64,
        late_ms: 0,
        to_client: b"",
        to_backend: b"",
        dials: 0,
        why: Why::Refused,
        begun: 0,
    },
    Row {
        name: "shut_at_a_tick",
        file: "{\"listen\":\"127.0.0.1:8080\",\"routes\":[{\"pattern\":\"/\",\"backend\":\"http://127.0.0.1:9000\"}]}",
        before: Before::Shut,
        client: Link {
            comes: &[
                Comes::Tick,
                Comes::Text(b"GET / HTTP/1.1\r\nHost: example.com\r\n\r\n"),
            ],
            takes: &[],
        },
        backends: &[],
        late_from: 64,
        late_ms: 0,
        to_client: b"",
        to_backend: b"",
        dials: 0,
        why: Why::Shut,
        begun: 0,
    },
    Row {
        name: "cancelled_before",
        file: "{\"listen\":\"127.0.0.1:8080\",\"routes\":[{\"pattern\":\"/\",\"backend\":\"http://127.0.0.1:9000\"}]}",
        before: Before::Cancelled,
        client: Link {
            comes: &[Comes::Text(b"GET / HTTP/1.1\r\nHost: example.com\r\n\r\n")],
            takes: &[],
        },
        backends: &[Link {
            comes: &[Comes::Text(b"HTTP/1.1 200 OK\r\nContent-Length: 3\r\n\r\nhi\n")],
            takes: &[],
        }],
        late_from: 64,
        late_ms: 0,
        to_client: b"HTTP/1.1 503 Service Unavailable\r\nContent-Length: 24\r\nDate: Sun, 06 Nov 1994 08:49:37 GMT\r\n\r\n503 Service Unavailable\n",
        to_backend: b"",
        dials: 0,
        why: Why::End,
        begun: 1,
    },
    Row {
        name: "failed_client",
        file: "{\"listen\":\"127.0.0.1:8080\",\"routes\":[{\"pattern\":\"/\",\"backend\":\"http://127.0.0.1:9000\"}]}",
        before: Before::Nothing,
        client: Link {
            comes: &[Comes::Text(b"GET / HT"), Comes::Fails],
            takes: &[],
        },
        backends: &[],
        late_from: 64,
        late_ms: 0,
        to_client: b"",
        to_backend: b"",
        dials: 0,
        why: Why::Failed,
        begun: 1,
    },
    Row {
        name: "full_journal",
        file: "{\"listen\":\"127.0.0.1:8080\",\"journal\":16,\"routes\":[{\"pattern\":\"/\",\"backend\":\"http://127.0.0.1:9000\"}]}",
        before: Before::Nothing,
        client: Link {
            comes: &[Comes::Text(
                b"GET / HTTP/1.1\r\nHost: example.com\r\n\r\nGET / HTTP/1.1\r\nHost: example.com\r\n\r\nGET / HTTP/1.1\r\nHost: example.com\r\n\r\nGET / HTTP/1.1\r\nHost: example.com\r\n\r\nGET / HTTP/1.1\r\nHost: example.com\r\n\r\n",
            )],
            takes: &[],
        },
        backends: &[Link {
            comes: &[
                Comes::Text(b"HTTP/1.1 200 OK\r\nContent-Length: 3\r\n\r\nhi\n"),
                Comes::Text(b"HTTP/1.1 200 OK\r\nContent-Length: 3\r\n\r\nhi\n"),
                Comes::Text(b"HTTP/1.1 200 OK\r\nContent-Length: 3\r\n\r\nhi\n"),
                Comes::Text(b"HTTP/1.1 200 OK\r\nContent-Length: 3\r\n\r\nhi\n"),
            ],
            takes: &[],
        }],
        late_from: 64,
        late_ms: 0,
        to_client: b"HTTP/1.1 200 OK\r\nContent-Length: 3\r\nDate: Sun, 06 Nov 1994 08:49:37 GMT\r\n\r\nhi\nHTTP/1.1 200 OK\r\nContent-Length: 3\r\nDate: Sun, 06 Nov 1994 08:49:37 GMT\r\n\r\nhi\nHTTP/1.1 200 OK\r\nContent-Length: 3\r\nDate: Sun, 06 Nov 1994 08:49:37 GMT\r\n\r\nhi\nHTTP/1.1 200 OK\r\nContent-Length: 3\r\nDate: Sun, 06 Nov 1994 08:49:37 GMT\r\n\r\nhi\nHTTP/1.1 503 Service Unavailable\r\nContent-Length: 24\r\nDate: Sun, 06 Nov 1994 08:49:37 GMT\r\n\r\n503 Service Unavailable\n",
        to_backend: b"GET / HTTP/1.1\r\nHost: example.com\r\nX-Forwarded-For: 10.0.0.7\r\n\r\nGET / HTTP/1.1\r\nHost: example.com\r\nX-Forwarded-For: 10.0.0.7\r\n\r\nGET / HTTP/1.1\r\nHost: example.com\r\nX-Forwarded-For: 10.0.0.7\r\n\r\nGET / HTTP/1.1\r\nHost: example.com\r\nX-Forwarded-For: 10.0.0.7\r\n\r\n",
        dials: 1,
        why: Why::End,
        begun: 5,
    },
];
