// What is served, printed and answered for the words of `serve`.
use crate::tests::{Run, USAGE, is_run, quiet};

const SERVE: &str = "serve folder keys --listen 127.0.0.1:8080";

const SERVE_NEW: &str = "serve folder keys --listen 127.0.0.1:8080 --new";

// Signed requests, as bench/signed_texts.py prints them.
const PUT: &str = "PUT /-/vaults/examplevault HTTP/1.1\r\n\
    host: 127.0.0.1:8080\r\n\
    x-amz-date: 20120525T002453Z\r\n\
    x-amz-glacier-version: 2012-06-01\r\n\
    Authorization: AWS4-HMAC-SHA256 Credential=AKIDEXAMPLE/20120525/us-east-1/glacier/aws4_request, SignedHeaders=host;x-amz-date;x-amz-glacier-version, Signature=7b620e9f654afab62a8b29be5e8459f5b14ba6f29b41aeaf04b4d32a15e7f35b\r\n\r\n";

const GET: &str = "GET /-/vaults/examplevault HTTP/1.1\r\n\
    host: 127.0.0.1:8080\r\n\
    x-amz-date: 20120525T002453Z\r\n\
    x-amz-glacier-version: 2012-06-01\r\n\
    Authorization: AWS4-HMAC-SHA256 Credential=AKIDEXAMPLE/20120525/us-east-1/glacier/aws4_request, SignedHeaders=host;x-amz-date;x-amz-glacier-version, Signature=e0cc7d6f5bdffcf2550a469d682546025b31fb6d872bb80118ce9830b70c6140\r\n\r\n";

const MADE: &str = "HTTP/1.1 201 Created\r\n\
    Date: Fri, 25 May 2012 00:24:53 GMT\r\n\
    Location: /111122223333/vaults/examplevault\r\n\
    Content-Length: 0\r\n\r\n";

const MADE_AND_DESCRIBED: &str = "HTTP/1.1 201 Created\r\n\
    Date: Fri, 25 May 2012 00:24:53 GMT\r\n\
    Location: /111122223333/vaults/examplevault\r\n\
    Content-Length: 0\r\n\r\n\
    HTTP/1.1 200 OK\r\n\
    Date: Fri, 25 May 2012 00:24:53 GMT\r\n\
    Content-Type: application/json\r\n\
    Content-Length: 204\r\n\r\n\
    {\"CreationDate\":\"2012-05-25T00:24:53.000Z\",\"LastInventoryDate\":null,\
    \"NumberOfArchives\":0,\"SizeInBytes\":0,\
    \"VaultARN\":\"arn:aws:glacier:us-east-1:111122223333:vaults/examplevault\",\
    \"VaultName\":\"examplevault\"}";

/// The inputs, the calls of the station and of the sink that are to fail, the status, what is
/// printed and what is sent. The station's calls are: the folder is opened, four sizes, a header is
/// written and synced, Lead too, 9 listens, 10 accepts, 11 receives, 12 writes the record, 13
/// syncs, 14 writes its gate, 15 syncs, 16 sends, 17 receives, 18 accepts.
const SERVED: [(&[&str], &[u64], &[u64], u8, &str, &str); 15] = [
    (
        &[PUT, GET],
        &[],
        &[],
        0,
        "served 2 connections\n",
        MADE_AND_DESCRIBED,
    ),
    (&[], &[], &[], 0, "served 0 connections\n", ""),
    (&[PUT], &[0], &[], 5, "disk fault\n", ""),
    (&[PUT], &[8], &[], 5, "disk fault\n", ""),
    (&[PUT], &[9], &[], 6, "listener fault\n", ""),
    (&[PUT], &[10], &[], 6, "listener fault\n", ""),
    (&[PUT], &[11], &[], 0, "served 1 connections\n", ""),
    (&[GET, PUT], &[11], &[], 0, "served 2 connections\n", MADE),
    (&[PUT], &[12], &[], 5, "disk fault\n", ""),
    (&[PUT], &[15], &[], 5, "disk fault\n", ""),
    (&[PUT], &[16], &[], 0, "served 1 connections\n", ""),
    (&[PUT], &[18], &[], 6, "listener fault\n", MADE),
    (&[PUT], &[], &[0], 7, "", MADE),
    (&[PUT], &[], &[1], 7, "served ", MADE),
    (&[PUT], &[], &[2], 7, "served 1", MADE),
];

#[test]
fn connections_are_served_and_counted(rt: HostRuntime) {
    for (inputs, station_faults, sink_faults, status, printed, sent) in SERVED {
        let given = Run {
            inputs,
            station_faults,
            sink_faults,
            ..quiet(SERVE_NEW)
        };
        assert!(rt;
            is_run(&rt, rt.alloc(), &given, status, printed, sent) == Some(true),
            "{status} {printed}"
        );
    }
}

const CREATED: &str = "glacier journal1\0";

/// Words, Lead and Left, the status, what is printed and what is sent.
const FOLDERS: [(&str, &str, &str, u8, &str, &str); 5] = [
    (SERVE, "\0", CREATED, 0, "served 1 connections\n", MADE),
    (SERVE, "", "", 8, "not a journal: lead at 0\n", ""),
    (
        SERVE,
        "\0",
        "Glacier journal1\0",
        8,
        "not a journal: left at 0\n",
        "",
    ),
    (
        SERVE_NEW,
        "\0",
        CREATED,
        8,
        "not empty: lead has 1 bytes\n",
        "",
    ),
    (
        SERVE_NEW,
        "",
        CREATED,
        8,
        "not empty: left has 17 bytes\n",
        "",
    ),
];

#[test]
fn a_folder_holds_a_store_or_is_empty(rt: HostRuntime) {
    for (words, lead, left, status, printed, sent) in FOLDERS {
        let given = Run {
            lead,
            left,
            inputs: &[PUT],
            ..quiet(words)
        };
        assert!(rt;
            is_run(&rt, rt.alloc(), &given, status, printed, sent) == Some(true),
            "{printed}"
        );
    }
}

/// Words that are no form, one line each.
const NO_FORMS: &str = "serve
serve folder keys
serve folder keys --listen
serve folder keys --port 127.0.0.1:8080
serve --listen 127.0.0.1:8080 folder keys
serve folder keys --listen 127.0.0.1:8080 more
serve folder keys --listen 127.0.0.1:8080 --new more
serve --new folder keys --listen 127.0.0.1:8080
server folder keys --listen 127.0.0.1:8080
serve folder keys --listen h\u{e9}:8080
serve folder keys --listen 127.0.0.1:8080 --listen 127.0.0.1:8080
serve folder keys --listen 127.0.0.1:8080 --new --new
serve folder keys --listen 127.0.0.1:8080 --verbose yes
serve folder keys --listen=127.0.0.1:8080
serve folder keys --listen 127.0.0.1:8080 --region
serve folder keys --listen 127.0.0.1:8080 --region EU
serve folder keys --listen 127.0.0.1:8080 --region eu-west-1 --region eu-west-1
serve folder keys --listen 127.0.0.1:8080 --region abcdefghijklmnopqrstuvwxyz0123456
serve folder keys --listen 127.0.0.1:8080 --delay
serve folder keys --listen 127.0.0.1:8080 --delay 31536001
serve folder keys --listen 127.0.0.1:8080 --delay 000000001
serve folder keys --listen 127.0.0.1:8080 --delay +1
serve folder keys --listen 127.0.0.1:8080 --delay 1 --delay 1
serve folder keys --listen 127.0.0.1:8080 --connections
serve folder keys --listen 127.0.0.1:8080 --connections 0
serve folder keys --listen 127.0.0.1:8080 --connections 1000001
serve folder keys --listen 127.0.0.1:8080 --connections one
serve folder keys --listen 127.0.0.1:8080 --connections 1 --connections 1
serve folder keys --connections 1";

#[test]
fn other_words_are_no_form(rt: HostRuntime) {
    for words in NO_FORMS.split('\n') {
        let given = Run {
            inputs: &[PUT],
            ..quiet(words)
        };
        assert!(rt;
            is_run(&rt, rt.alloc(), &given, 2, USAGE, "") == Some(true),
            "{words}"
        );
    }
}

// Signed for the region eu-west-1, by the function that made those above.
const PUT_IN_EUROPE: &str = "PUT /-/vaults/examplevault HTTP/1.1\r\n\
    host: 127.0.0.1:8080\r\n\
    x-amz-date: 20120525T002453Z\r\n\
    x-amz-glacier-version: 2012-06-01\r\n\
    Authorization: AWS4-HMAC-SHA256 Credential=AKIDEXAMPLE/20120525/eu-west-1/glacier/aws4_request, SignedHeaders=host;x-amz-date;x-amz-glacier-version, Signature=36eda47c8a21d2d5201c027b80d21a08cc2b5fa726e5f948cb3dab7d9036bdc1\r\n\r\n";

/// Options behind those of the address and the store, or between them, what comes, what is printed and
/// what is sent.
const OPTIONS: [(&str, &[&str], &str, &str); 14] = [
    (
        "serve folder keys --listen 127.0.0.1:8080 --new --connections 1",
        &[PUT, GET],
        "served 1 connections\n",
        MADE,
    ),
    (
        "serve folder keys --new --connections 1 --listen 127.0.0.1:8080",
        &[PUT, GET],
        "served 1 connections\n",
        MADE,
    ),
    (
        "serve folder keys --listen 127.0.0.1:8080 --new --connections 00000002",
        &[PUT, GET, GET],
        "served 2 connections\n",
        MADE_AND_DESCRIBED,
    ),
    (
        "serve folder keys --new --connections 00000002 --listen 127.0.0.1:8080",
        &[PUT, GET, GET],
        "served 2 connections\n",
        MADE_AND_DESCRIBED,
    ),
    (
        "serve folder keys --listen 127.0.0.1:8080 --new --connections 1000000",
        &[],
        "served 0 connections\n",
        "",
    ),
    (
        "serve folder keys --new --connections 1000000 --listen 127.0.0.1:8080",
        &[],
        "served 0 connections\n",
        "",
    ),
    (
        "serve folder keys --listen 127.0.0.1:8080 --new --region us-east-1",
        &[PUT],
        "served 1 connections\n",
        MADE,
    ),
    (
        "serve folder keys --new --region us-east-1 --listen 127.0.0.1:8080",
        &[PUT],
        "served 1 connections\n",
        MADE,
    ),
    (
        "serve folder keys --listen 127.0.0.1:8080 --new --delay 0",
        &[],
        "served 0 connections\n",
        "",
    ),
    (
        "serve folder keys --new --delay 0 --listen 127.0.0.1:8080",
        &[],
        "served 0 connections\n",
        "",
    ),
    (
        "serve folder keys --listen 127.0.0.1:8080 --new --delay 31536000",
        &[],
        "served 0 connections\n",
        "",
    ),
    (
        "serve folder keys --new --delay 31536000 --listen 127.0.0.1:8080",
        &[],
        "served 0 connections\n",
        "",
    ),
    (
        "serve folder keys --listen 127.0.0.1:8080 --new --delay 60 --connections 1 --region eu-west-1",
        &[PUT_IN_EUROPE, PUT_IN_EUROPE],
        "served 1 connections\n",
        MADE,
    ),
    (
        "serve folder keys --new --delay 60 --connections 1 --region eu-west-1 --listen 127.0.0.1:8080",
        &[PUT_IN_EUROPE, PUT_IN_EUROPE],
        "served 1 connections\n",
        MADE,
    ),
];

#[test]
fn options_stand_in_any_order(rt: HostRuntime) {
    for (words, inputs, printed, sent) in OPTIONS {
        let given = Run {
            inputs,
            ..quiet(words)
        };
        assert!(rt;
            is_run(&rt, rt.alloc(), &given, 0, printed, sent) == Some(true),
            "{words}"
        );
    }
}

/// How many bytes an address has, the status and what is printed.
const ADDRESSES: [(usize, u8, &str); 4] = [
    (0, 2, USAGE),
    (1, 0, "served 0 connections\n"),
    (255, 0, "served 0 connections\n"),
    (256, 2, USAGE),
];

#[test]
fn an_address_has_at_most_255_bytes(rt: HostRuntime) {
    for (length, status, printed) in ADDRESSES {
        let given = Run {
            letters: Some(length),
            lead: "\0",
            left: CREATED,
            ..quiet("serve folder keys --listen")
        };
        assert!(rt;
            is_run(&rt, rt.alloc(), &given, status, printed, "") == Some(true),
            "{length}"
        );
    }
}

/// Another name of the key file, its text, the calls of the files that are to fail, and what is
/// printed with the status 3.
const KEY_FILES: [(&str, &str, &[u64], &str); 7] = [
    (SERVE_OTHER, "", &[], "file fault\n"),
    (SERVE, KEY, &[0], "file fault\n"),
    (SERVE, KEY, &[1], "file fault\n"),
    (SERVE, KEY, &[2], "file fault\n"),
    (SERVE, "", &[], "bad key file: line 1\n"),
    (
        SERVE,
        "111122223333 A s 64\n111122223333 B s 1\n",
        &[],
        "bad key file: line 2\n",
    ),
    (
        SERVE,
        "111122223333 A s 64\n\n",
        &[],
        "bad key file: line 2\n",
    ),
];

const SERVE_OTHER: &str = "serve folder nosuch --listen 127.0.0.1:8080";

const KEY: &str = "111122223333 A s 64\n";

#[test]
fn a_key_file_is_read_before_anything_is_opened(rt: HostRuntime) {
    for (words, keys, file_faults, printed) in KEY_FILES {
        let given = Run {
            keys,
            inputs: &[PUT],
            file_faults,
            ..quiet(words)
        };
        assert!(rt;
            is_run(&rt, rt.alloc(), &given, 3, printed, "") == Some(true),
            "{words} {printed}"
        );
    }
}
