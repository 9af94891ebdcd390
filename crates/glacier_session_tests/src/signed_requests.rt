// Texts of signed requests: bench/signed_texts.py prints this file.

pub const PUT: &str = "PUT /-/vaults/examplevault HTTP/1.1\r\n\
    host: 127.0.0.1:8080\r\n\
    x-amz-date: 20120525T002453Z\r\n\
    x-amz-glacier-version: 2012-06-01\r\n\
    Authorization: AWS4-HMAC-SHA256 Credential=AKIDEXAMPLE/20120525/us-east-1/glacier/aws4_request, SignedHeaders=host;x-amz-date;x-amz-glacier-version, Signature=7b620e9f654afab62a8b29be5e8459f5b14ba6f29b41aeaf04b4d32a15e7f35b\r\n\r\n";

pub const GET: &str = "GET /-/vaults/examplevault HTTP/1.1\r\n\
    host: 127.0.0.1:8080\r\n\
    x-amz-date: 20120525T002453Z\r\n\
    x-amz-glacier-version: 2012-06-01\r\n\
    Authorization: AWS4-HMAC-SHA256 Credential=AKIDEXAMPLE/20120525/us-east-1/glacier/aws4_request, SignedHeaders=host;x-amz-date;x-amz-glacier-version, Signature=e0cc7d6f5bdffcf2550a469d682546025b31fb6d872bb80118ce9830b70c6140\r\n\r\n";

pub const GET_NO_SUCH: &str = "GET /-/vaults/nosuch HTTP/1.1\r\n\
    host: 127.0.0.1:8080\r\n\
    x-amz-date: 20120525T002453Z\r\n\
    x-amz-glacier-version: 2012-06-01\r\n\
    Authorization: AWS4-HMAC-SHA256 Credential=AKIDEXAMPLE/20120525/us-east-1/glacier/aws4_request, SignedHeaders=host;x-amz-date;x-amz-glacier-version, Signature=fd7b39f0e9ffe56cfc1b5b8d2387d8e6ea3438e21d4d4f81ac1be8a06d3ca15b\r\n\r\n";

pub const GET_BY_OTHER: &str = "GET /-/vaults/examplevault HTTP/1.1\r\n\
    host: 127.0.0.1:8080\r\n\
    x-amz-date: 20120525T002453Z\r\n\
    x-amz-glacier-version: 2012-06-01\r\n\
    Authorization: AWS4-HMAC-SHA256 Credential=AKIDOTHER/20120525/us-east-1/glacier/aws4_request, SignedHeaders=host;x-amz-date;x-amz-glacier-version, Signature=00a7c7620c0c79470cc1f5d5146c47895aefc36c9432ca0d835ee81cd628a839\r\n\r\n";

pub const GET_OF_FIRST_BY_OTHER: &str = "GET /111122223333/vaults/examplevault HTTP/1.1\r\n\
    host: 127.0.0.1:8080\r\n\
    x-amz-date: 20120525T002453Z\r\n\
    x-amz-glacier-version: 2012-06-01\r\n\
    Authorization: AWS4-HMAC-SHA256 Credential=AKIDOTHER/20120525/us-east-1/glacier/aws4_request, SignedHeaders=host;x-amz-date;x-amz-glacier-version, Signature=e29c0c3ef73e7fd660b77c8b5056e5ac865fa969381c093efdd32b66caa6f47a\r\n\r\n";

pub const PUT_BY_NOBODY: &str = "PUT /-/vaults/examplevault HTTP/1.1\r\n\
    host: 127.0.0.1:8080\r\n\
    x-amz-date: 20120525T002453Z\r\n\
    x-amz-glacier-version: 2012-06-01\r\n\
    Authorization: AWS4-HMAC-SHA256 Credential=AKIDNOBODY/20120525/us-east-1/glacier/aws4_request, SignedHeaders=host;x-amz-date;x-amz-glacier-version, Signature=7b620e9f654afab62a8b29be5e8459f5b14ba6f29b41aeaf04b4d32a15e7f35b\r\n\r\n";

pub const PUT_OF_ANOTHER_DAY: &str = "PUT /-/vaults/examplevault HTTP/1.1\r\n\
    host: 127.0.0.1:8080\r\n\
    x-amz-date: 20120525T002453Z\r\n\
    x-amz-glacier-version: 2012-06-01\r\n\
    Authorization: AWS4-HMAC-SHA256 Credential=AKIDEXAMPLE/20120526/us-east-1/glacier/aws4_request, SignedHeaders=host;x-amz-date;x-amz-glacier-version, Signature=3eae53cd36d4714ca0bacc0f16fda754dd047c40d4f3e193afb1e14d5e63bf0d\r\n\r\n";

pub const PUT_OF_ANOTHER_REGION: &str = "PUT /-/vaults/examplevault HTTP/1.1\r\n\
    host: 127.0.0.1:8080\r\n\
    x-amz-date: 20120525T002453Z\r\n\
    x-amz-glacier-version: 2012-06-01\r\n\
    Authorization: AWS4-HMAC-SHA256 Credential=AKIDEXAMPLE/20120525/us-west-2/glacier/aws4_request, SignedHeaders=host;x-amz-date;x-amz-glacier-version, Signature=d74cb42dd497673b107e5473636369b4a48281e5c3b6a2f90e7c71223fa62946\r\n\r\n";

pub const PUT_WITHOUT_AUTHORIZATION: &str = "PUT /-/vaults/examplevault HTTP/1.1\r\n\
    host: 127.0.0.1:8080\r\n\
    x-amz-date: 20120525T002453Z\r\n\
    x-amz-glacier-version: 2012-06-01\r\n\r\n";

pub const PUT_OF_UPPER_CASE: &str = "PUT /-/vaults/examplevault HTTP/1.1\r\n\
    host: 127.0.0.1:8080\r\n\
    x-amz-date: 20120525T002453Z\r\n\
    x-amz-glacier-version: 2012-06-01\r\n\
    Authorization: AWS4-HMAC-SHA256 Credential=AKIDEXAMPLE/20120525/us-east-1/glacier/aws4_request, SignedHeaders=host;x-amz-date;x-amz-glacier-version, Signature=7B620e9f654afab62a8b29be5e8459f5b14ba6f29b41aeaf04b4d32a15e7f35b\r\n\r\n";

pub const PUT_OF_ANOTHER_DIGIT: &str = "PUT /-/vaults/examplevault HTTP/1.1\r\n\
    host: 127.0.0.1:8080\r\n\
    x-amz-date: 20120525T002453Z\r\n\
    x-amz-glacier-version: 2012-06-01\r\n\
    Authorization: AWS4-HMAC-SHA256 Credential=AKIDEXAMPLE/20120525/us-east-1/glacier/aws4_request, SignedHeaders=host;x-amz-date;x-amz-glacier-version, Signature=8b620e9f654afab62a8b29be5e8459f5b14ba6f29b41aeaf04b4d32a15e7f35b\r\n\r\n";

pub const PUT_WITH_A_FIELD_MORE: &str = "PUT /-/vaults/examplevault HTTP/1.1\r\n\
    host: 127.0.0.1:8080\r\n\
    x-amz-date: 20120525T002453Z\r\n\
    x-amz-glacier-version: 2012-06-01\r\n\
    x-amz-archive-description: x\r\n\
    Authorization: AWS4-HMAC-SHA256 Credential=AKIDEXAMPLE/20120525/us-east-1/glacier/aws4_request, SignedHeaders=host;x-amz-date;x-amz-glacier-version, Signature=7b620e9f654afab62a8b29be5e8459f5b14ba6f29b41aeaf04b4d32a15e7f35b\r\n\r\n";

pub const PUT_OF_3_BYTES: &str = "PUT /-/vaults/examplevault HTTP/1.1\r\n\
    host: 127.0.0.1:8080\r\n\
    x-amz-date: 20120525T002453Z\r\n\
    x-amz-glacier-version: 2012-06-01\r\n\
    Authorization: AWS4-HMAC-SHA256 Credential=AKIDEXAMPLE/20120525/us-east-1/glacier/aws4_request, SignedHeaders=host;x-amz-date;x-amz-glacier-version, Signature=9f46d9e00d13ac99a6f9a3f8d81f0fbb615319b8e87e0e19238d9579fc6c4335\r\n\
    Content-Length: 3\r\n\r\n";

pub const PUT_OF_3_BYTES_THAT_WAITS: &str = "PUT /-/vaults/examplevault HTTP/1.1\r\n\
    host: 127.0.0.1:8080\r\n\
    x-amz-date: 20120525T002453Z\r\n\
    x-amz-glacier-version: 2012-06-01\r\n\
    Expect: 100-continue\r\n\
    Authorization: AWS4-HMAC-SHA256 Credential=AKIDEXAMPLE/20120525/us-east-1/glacier/aws4_request, SignedHeaders=host;x-amz-date;x-amz-glacier-version, Signature=9f46d9e00d13ac99a6f9a3f8d81f0fbb615319b8e87e0e19238d9579fc6c4335\r\n\
    Content-Length: 3\r\n\r\n";

pub const PUT_OF_NO_BYTE_THAT_WAITS: &str = "PUT /-/vaults/examplevault HTTP/1.1\r\n\
    host: 127.0.0.1:8080\r\n\
    x-amz-date: 20120525T002453Z\r\n\
    x-amz-glacier-version: 2012-06-01\r\n\
    Expect: 100-continue\r\n\
    Authorization: AWS4-HMAC-SHA256 Credential=AKIDEXAMPLE/20120525/us-east-1/glacier/aws4_request, SignedHeaders=host;x-amz-date;x-amz-glacier-version, Signature=7b620e9f654afab62a8b29be5e8459f5b14ba6f29b41aeaf04b4d32a15e7f35b\r\n\r\n";

pub const PUT_OF_A_DIGEST: &str = "PUT /-/vaults/examplevault HTTP/1.1\r\n\
    host: 127.0.0.1:8080\r\n\
    x-amz-content-sha256: ba7816bf8f01cfea414140de5dae2223b00361a396177a9cb410ff61f20015ad\r\n\
    x-amz-date: 20120525T002453Z\r\n\
    x-amz-glacier-version: 2012-06-01\r\n\
    Authorization: AWS4-HMAC-SHA256 Credential=AKIDEXAMPLE/20120525/us-east-1/glacier/aws4_request, SignedHeaders=host;x-amz-content-sha256;x-amz-date;x-amz-glacier-version, Signature=bd36b226509cc3b2ac66f28bec7b1bf4e2004b8719cfcf81a3ea950e4e2f6c1a\r\n\
    Content-Length: 3\r\n\r\n";

pub const PUT_OF_A_WRONG_DIGEST: &str = "PUT /-/vaults/examplevault HTTP/1.1\r\n\
    host: 127.0.0.1:8080\r\n\
    x-amz-content-sha256: e3b0c44298fc1c149afbf4c8996fb92427ae41e4649b934ca495991b7852b855\r\n\
    x-amz-date: 20120525T002453Z\r\n\
    x-amz-glacier-version: 2012-06-01\r\n\
    Authorization: AWS4-HMAC-SHA256 Credential=AKIDEXAMPLE/20120525/us-east-1/glacier/aws4_request, SignedHeaders=host;x-amz-content-sha256;x-amz-date;x-amz-glacier-version, Signature=ee9dd3fc4417e133f9f05c7ddd6705f0aca62eb95f1114a22d00e9899ced11be\r\n\
    Content-Length: 3\r\n\r\n";

pub const PUT_OF_A_WRONG_DIGEST_THAT_WAITS: &str = "PUT /-/vaults/examplevault HTTP/1.1\r\n\
    host: 127.0.0.1:8080\r\n\
    x-amz-content-sha256: e3b0c44298fc1c149afbf4c8996fb92427ae41e4649b934ca495991b7852b855\r\n\
    x-amz-date: 20120525T002453Z\r\n\
    x-amz-glacier-version: 2012-06-01\r\n\
    Expect: 100-continue\r\n\
    Authorization: AWS4-HMAC-SHA256 Credential=AKIDEXAMPLE/20120525/us-east-1/glacier/aws4_request, SignedHeaders=host;x-amz-content-sha256;x-amz-date;x-amz-glacier-version, Signature=ee9dd3fc4417e133f9f05c7ddd6705f0aca62eb95f1114a22d00e9899ced11be\r\n\
    Content-Length: 3\r\n\r\n";

pub const PUT_OF_NO_DIGEST: &str = "PUT /-/vaults/examplevault HTTP/1.1\r\n\
    host: 127.0.0.1:8080\r\n\
    x-amz-content-sha256: x\r\n\
    x-amz-date: 20120525T002453Z\r\n\
    x-amz-glacier-version: 2012-06-01\r\n\
    Authorization: AWS4-HMAC-SHA256 Credential=AKIDEXAMPLE/20120525/us-east-1/glacier/aws4_request, SignedHeaders=host;x-amz-content-sha256;x-amz-date;x-amz-glacier-version, Signature=3fb57ecfbfefa58ad6596a5067b3cf0976c61b9afff6492f8f4a6fe5b4cde811\r\n\r\n";

pub const PUT_WITHOUT_DIGEST: &str = "PUT /-/vaults/examplevault HTTP/1.1\r\n\
    host: 127.0.0.1:8080\r\n\
    x-amz-date: 20120525T002453Z\r\n\
    x-amz-glacier-version: 2012-06-01\r\n\
    Authorization: AWS4-HMAC-SHA256 Credential=AKIDEXAMPLE/20120525/us-east-1/glacier/aws4_request, SignedHeaders=host;x-amz-date;x-amz-glacier-version, Signature=7b620e9f654afab62a8b29be5e8459f5b14ba6f29b41aeaf04b4d32a15e7f35b\r\n\
    Content-Length: 1048577\r\n\r\n";

pub const PUT_OF_A_LONG_BODY: &str = "PUT /-/vaults/examplevault HTTP/1.1\r\n\
    host: 127.0.0.1:8080\r\n\
    x-amz-content-sha256: 4a3f0c0c213adea174f9a3d4c13177315b588bdb2e9c1012d3d0bf0453ca0f6a\r\n\
    x-amz-date: 20120525T002453Z\r\n\
    x-amz-glacier-version: 2012-06-01\r\n\
    Authorization: AWS4-HMAC-SHA256 Credential=AKIDEXAMPLE/20120525/us-east-1/glacier/aws4_request, SignedHeaders=host;x-amz-content-sha256;x-amz-date;x-amz-glacier-version, Signature=7c14d4757dcba64da499ce0f0cfe2f84658dad07618d3cf8431ef9321bb3626f\r\n\
    Content-Length: 1048577\r\n\r\n";

pub const PUT_VAULT: &str = "PUT /111122223333/vaults/v HTTP/1.1\r\n\
    host: 127.0.0.1:8080\r\n\
    x-amz-date: 20120525T002453Z\r\n\
    x-amz-glacier-version: 2012-06-01\r\n\
    Authorization: AWS4-HMAC-SHA256 Credential=AKIDEXAMPLE/20120525/us-east-1/glacier/aws4_request, SignedHeaders=host;x-amz-date;x-amz-glacier-version, Signature=213628ba73add545fd13182f52aa66ffd25a20016641bf4688345b70f387b804\r\n\r\n";

pub const DELETE_VAULT: &str = "DELETE /111122223333/vaults/v HTTP/1.1\r\n\
    host: 127.0.0.1:8080\r\n\
    x-amz-date: 20120525T002453Z\r\n\
    x-amz-glacier-version: 2012-06-01\r\n\
    Authorization: AWS4-HMAC-SHA256 Credential=AKIDEXAMPLE/20120525/us-east-1/glacier/aws4_request, SignedHeaders=host;x-amz-date;x-amz-glacier-version, Signature=f7655bdafce6670185f514f4a650d73be11a34fa9825a87b19f74f53146a5c0b\r\n\r\n";

pub const DELETE: &str = "DELETE /-/vaults/examplevault HTTP/1.1\r\n\
    host: 127.0.0.1:8080\r\n\
    x-amz-date: 20120525T002453Z\r\n\
    x-amz-glacier-version: 2012-06-01\r\n\
    Authorization: AWS4-HMAC-SHA256 Credential=AKIDEXAMPLE/20120525/us-east-1/glacier/aws4_request, SignedHeaders=host;x-amz-date;x-amz-glacier-version, Signature=58883195f780d38803053129f9d8f9b5550ed15c51af85fca83e54f42dd8adaf\r\n\r\n";

pub const DELETE_NO_SUCH: &str = "DELETE /-/vaults/nosuch HTTP/1.1\r\n\
    host: 127.0.0.1:8080\r\n\
    x-amz-date: 20120525T002453Z\r\n\
    x-amz-glacier-version: 2012-06-01\r\n\
    Authorization: AWS4-HMAC-SHA256 Credential=AKIDEXAMPLE/20120525/us-east-1/glacier/aws4_request, SignedHeaders=host;x-amz-date;x-amz-glacier-version, Signature=aed31ec01c0003c08447df4f7df6525658a45af4df39d6a843a064ffc2b94cee\r\n\r\n";

pub const DELETE_BY_OTHER: &str = "DELETE /-/vaults/examplevault HTTP/1.1\r\n\
    host: 127.0.0.1:8080\r\n\
    x-amz-date: 20120525T002453Z\r\n\
    x-amz-glacier-version: 2012-06-01\r\n\
    Authorization: AWS4-HMAC-SHA256 Credential=AKIDOTHER/20120525/us-east-1/glacier/aws4_request, SignedHeaders=host;x-amz-date;x-amz-glacier-version, Signature=6adfa9beff9b1af37c1403997270e43d8afdb09e16da00b052b9cfbd07947a6c\r\n\r\n";

pub const DELETE_OF_FIRST_BY_OTHER: &str = "DELETE /111122223333/vaults/examplevault HTTP/1.1\r\n\
    host: 127.0.0.1:8080\r\n\
    x-amz-date: 20120525T002453Z\r\n\
    x-amz-glacier-version: 2012-06-01\r\n\
    Authorization: AWS4-HMAC-SHA256 Credential=AKIDOTHER/20120525/us-east-1/glacier/aws4_request, SignedHeaders=host;x-amz-date;x-amz-glacier-version, Signature=0552ac9d265de919dc9cc6051fc8f56ebe0b8d2ae8bf532a07ccd4c9aa6a5cdd\r\n\r\n";

pub const POST_VAULT: &str = "POST /111122223333/vaults/v HTTP/1.1\r\n\
    host: 127.0.0.1:8080\r\n\
    x-amz-date: 20120525T002453Z\r\n\
    x-amz-glacier-version: 2012-06-01\r\n\
    Authorization: AWS4-HMAC-SHA256 Credential=AKIDEXAMPLE/20120525/us-east-1/glacier/aws4_request, SignedHeaders=host;x-amz-date;x-amz-glacier-version, Signature=bdbe1d546d64d48339060f6353982c6db2ac4212d9201f8625b9c38a51f3466c\r\n\r\n";

pub const PUT_VAULT_ELSEWHERE: &str = "PUT /111122223333/vault/v HTTP/1.1\r\n\
    host: 127.0.0.1:8080\r\n\
    x-amz-date: 20120525T002453Z\r\n\
    x-amz-glacier-version: 2012-06-01\r\n\
    Authorization: AWS4-HMAC-SHA256 Credential=AKIDEXAMPLE/20120525/us-east-1/glacier/aws4_request, SignedHeaders=host;x-amz-date;x-amz-glacier-version, Signature=b1849db4b2620d25cdc4afdf6f6c8c29da9ae4e15c8c36e5bbac7f4ef8ba4a84\r\n\r\n";

pub const PUT_BELOW_VAULT: &str = "PUT /111122223333/vaults/v/ HTTP/1.1\r\n\
    host: 127.0.0.1:8080\r\n\
    x-amz-date: 20120525T002453Z\r\n\
    x-amz-glacier-version: 2012-06-01\r\n\
    Authorization: AWS4-HMAC-SHA256 Credential=AKIDEXAMPLE/20120525/us-east-1/glacier/aws4_request, SignedHeaders=host;x-amz-date;x-amz-glacier-version, Signature=90c8122220275f1113f88f8fc10bf3369384047551674420644958aae1bc7146\r\n\r\n";

pub const GET_VAULTS: &str = "GET /111122223333/vaults HTTP/1.1\r\n\
    host: 127.0.0.1:8080\r\n\
    x-amz-date: 20120525T002453Z\r\n\
    x-amz-glacier-version: 2012-06-01\r\n\
    Authorization: AWS4-HMAC-SHA256 Credential=AKIDEXAMPLE/20120525/us-east-1/glacier/aws4_request, SignedHeaders=host;x-amz-date;x-amz-glacier-version, Signature=8ed114aea7edbf0be0798e2721e3091bc262821534c73f257d979851cf2c1c09\r\n\r\n";

pub const GET_OF_11_DIGITS: &str = "GET /11112222333/vaults/v HTTP/1.1\r\n\
    host: 127.0.0.1:8080\r\n\
    x-amz-date: 20120525T002453Z\r\n\
    x-amz-glacier-version: 2012-06-01\r\n\
    Authorization: AWS4-HMAC-SHA256 Credential=AKIDEXAMPLE/20120525/us-east-1/glacier/aws4_request, SignedHeaders=host;x-amz-date;x-amz-glacier-version, Signature=4af307d6e1ddd6df4b2beacb63ffa13663560db634356f963e129d8c2a14ccfe\r\n\r\n";

pub const POST_NO_NAME: &str = "POST /111122223333/vaults/ HTTP/1.1\r\n\
    host: 127.0.0.1:8080\r\n\
    x-amz-date: 20120525T002453Z\r\n\
    x-amz-glacier-version: 2012-06-01\r\n\
    Authorization: AWS4-HMAC-SHA256 Credential=AKIDEXAMPLE/20120525/us-east-1/glacier/aws4_request, SignedHeaders=host;x-amz-date;x-amz-glacier-version, Signature=7458bcac1585b6fd453175deb12c122eb6f0be585c8aa3efd746e36df10ab198\r\n\r\n";

pub const PUT_NO_NAME: &str = "PUT /-/vaults/ HTTP/1.1\r\n\
    host: 127.0.0.1:8080\r\n\
    x-amz-date: 20120525T002453Z\r\n\
    x-amz-glacier-version: 2012-06-01\r\n\
    Authorization: AWS4-HMAC-SHA256 Credential=AKIDEXAMPLE/20120525/us-east-1/glacier/aws4_request, SignedHeaders=host;x-amz-date;x-amz-glacier-version, Signature=d0ce7216fd4fa9c06a2476f79d466d6925398bc8ee56d4961a8e1fb4b8cc1e02\r\n\r\n";

pub const DELETE_NO_NAME: &str = "DELETE /-/vaults/ HTTP/1.1\r\n\
    host: 127.0.0.1:8080\r\n\
    x-amz-date: 20120525T002453Z\r\n\
    x-amz-glacier-version: 2012-06-01\r\n\
    Authorization: AWS4-HMAC-SHA256 Credential=AKIDEXAMPLE/20120525/us-east-1/glacier/aws4_request, SignedHeaders=host;x-amz-date;x-amz-glacier-version, Signature=c824577f20294fd84c4c704cbbbf78b5f5c16279f2a8e7294749a2fca2a43616\r\n\r\n";

pub const GET_TWO_DOTS: &str = "GET /111122223333/vaults/.. HTTP/1.1\r\n\
    host: 127.0.0.1:8080\r\n\
    x-amz-date: 20120525T002453Z\r\n\
    x-amz-glacier-version: 2012-06-01\r\n\
    Authorization: AWS4-HMAC-SHA256 Credential=AKIDEXAMPLE/20120525/us-east-1/glacier/aws4_request, SignedHeaders=host;x-amz-date;x-amz-glacier-version, Signature=98b83d9d271c3b975c0e131333887a641646b9b5255c50307d0fbb026a9b5422\r\n\r\n";

pub const GET_TILDE: &str = "GET /111122223333/vaults/a~b HTTP/1.1\r\n\
    host: 127.0.0.1:8080\r\n\
    x-amz-date: 20120525T002453Z\r\n\
    x-amz-glacier-version: 2012-06-01\r\n\
    Authorization: AWS4-HMAC-SHA256 Credential=AKIDEXAMPLE/20120525/us-east-1/glacier/aws4_request, SignedHeaders=host;x-amz-date;x-amz-glacier-version, Signature=063d2a1fba2d1d39ca4faf288947d0a94003e49bea7153ac57b421a69cee807f\r\n\r\n";

pub const PUT_BAD_NAME_OF_OTHER: &str = "PUT /444455556666/vaults/.. HTTP/1.1\r\n\
    host: 127.0.0.1:8080\r\n\
    x-amz-date: 20120525T002453Z\r\n\
    x-amz-glacier-version: 2012-06-01\r\n\
    Authorization: AWS4-HMAC-SHA256 Credential=AKIDEXAMPLE/20120525/us-east-1/glacier/aws4_request, SignedHeaders=host;x-amz-date;x-amz-glacier-version, Signature=9c2e7771f66cf2d0cd1e0efd269e3a83b06932ad0d797b6eece658b77984bb9f\r\n\r\n";

pub const GET_OF_OTHER_WITH_TOKEN: &str = "GET /444455556666/vaults/v HTTP/1.1\r\n\
    host: 127.0.0.1:8080\r\n\
    x-amz-date: 20120525T002453Z\r\n\
    x-amz-glacier-version: 2012-06-01\r\n\
    x-amz-security-token: t\r\n\
    Authorization: AWS4-HMAC-SHA256 Credential=AKIDEXAMPLE/20120525/us-east-1/glacier/aws4_request, SignedHeaders=host;x-amz-date;x-amz-glacier-version;x-amz-security-token, Signature=fe2b872bb7b90a07df1f8d1a02e2b681bd2930f6bddffb4925cf54fb10dc4b0f\r\n\r\n";

pub const GET_WITH_TOKEN: &str = "GET /111122223333/vaults/v HTTP/1.1\r\n\
    host: 127.0.0.1:8080\r\n\
    x-amz-date: 20120525T002453Z\r\n\
    x-amz-security-token: \r\n\
    Authorization: AWS4-HMAC-SHA256 Credential=AKIDEXAMPLE/20120525/us-east-1/glacier/aws4_request, SignedHeaders=host;x-amz-date;x-amz-security-token, Signature=bf9e55751b5d498034625b2176399ccf1c619223771041df600cf34bce1bdff8\r\n\r\n";

pub const GET_WITHOUT_VERSION: &str = "GET /111122223333/vaults/v HTTP/1.1\r\n\
    host: 127.0.0.1:8080\r\n\
    x-amz-content-sha256: x\r\n\
    x-amz-date: 20120525T002453Z\r\n\
    Authorization: AWS4-HMAC-SHA256 Credential=AKIDEXAMPLE/20120525/us-east-1/glacier/aws4_request, SignedHeaders=host;x-amz-content-sha256;x-amz-date, Signature=1d48d68e4b4fd7851a202aafea80dc7162e1e37f44a93a8c4f7ab09839225bc9\r\n\r\n";

pub const GET_OF_TWO_VERSIONS: &str = "GET /111122223333/vaults/v HTTP/1.1\r\n\
    host: 127.0.0.1:8080\r\n\
    x-amz-content-sha256: x\r\n\
    x-amz-date: 20120525T002453Z\r\n\
    x-amz-glacier-version: 2012-06-01\r\n\
    x-amz-glacier-version: 2012-06-01\r\n\
    Authorization: AWS4-HMAC-SHA256 Credential=AKIDEXAMPLE/20120525/us-east-1/glacier/aws4_request, SignedHeaders=host;x-amz-content-sha256;x-amz-date;x-amz-glacier-version, Signature=a2976a67e286edc22b678040991c1cf84337d4fbef2cd5933ff9060e12d3a2f1\r\n\r\n";

pub const UPLOAD: &str = "POST /-/vaults/examplevault/archives HTTP/1.1\r\n\
    host: 127.0.0.1:8080\r\n\
    x-amz-content-sha256: 2cf24dba5fb0a30e26e83b2ac5b9e29e1b161e5c1fa7425e73043362938b9824\r\n\
    x-amz-date: 20120525T002453Z\r\n\
    x-amz-glacier-version: 2012-06-01\r\n\
    x-amz-sha256-tree-hash: 2cf24dba5fb0a30e26e83b2ac5b9e29e1b161e5c1fa7425e73043362938b9824\r\n\
    Authorization: AWS4-HMAC-SHA256 Credential=AKIDEXAMPLE/20120525/us-east-1/glacier/aws4_request, SignedHeaders=host;x-amz-content-sha256;x-amz-date;x-amz-glacier-version;x-amz-sha256-tree-hash, Signature=b0ae8f2dd6984ddf6d612e862f1902d8eaad888e2b7ac75c495e851a34d32964\r\n\
    Content-Length: 5\r\n\r\n";

pub const UPLOAD_THAT_WAITS: &str = "POST /-/vaults/examplevault/archives HTTP/1.1\r\n\
    host: 127.0.0.1:8080\r\n\
    x-amz-content-sha256: 2cf24dba5fb0a30e26e83b2ac5b9e29e1b161e5c1fa7425e73043362938b9824\r\n\
    x-amz-date: 20120525T002453Z\r\n\
    x-amz-glacier-version: 2012-06-01\r\n\
    x-amz-sha256-tree-hash: 2cf24dba5fb0a30e26e83b2ac5b9e29e1b161e5c1fa7425e73043362938b9824\r\n\
    Expect: 100-continue\r\n\
    Authorization: AWS4-HMAC-SHA256 Credential=AKIDEXAMPLE/20120525/us-east-1/glacier/aws4_request, SignedHeaders=host;x-amz-content-sha256;x-amz-date;x-amz-glacier-version;x-amz-sha256-tree-hash, Signature=b0ae8f2dd6984ddf6d612e862f1902d8eaad888e2b7ac75c495e851a34d32964\r\n\
    Content-Length: 5\r\n\r\n";

pub const BEGIN_RETRIEVAL: &str = "POST /-/vaults/examplevault/jobs HTTP/1.1\r\n\
    host: 127.0.0.1:8080\r\n\
    x-amz-date: 20120525T002453Z\r\n\
    x-amz-glacier-version: 2012-06-01\r\n\
    Authorization: AWS4-HMAC-SHA256 Credential=AKIDEXAMPLE/20120525/us-east-1/glacier/aws4_request, SignedHeaders=host;x-amz-date;x-amz-glacier-version, Signature=b2ea182180f2506a053f86c6dccd6be373bd6a061e2b3ef39d55ea10e528b736\r\n\
    Content-Length: 83\r\n\r\n\
    {\"Type\":\"archive-retrieval\",\"ArchiveId\":\"a00000000000000000000\",\"Tier\":\"Expedited\"}";

pub const GET_OUTPUT: &str =
    "GET /-/vaults/examplevault/jobs/j00000000000000000001/output HTTP/1.1\r\n\
    host: 127.0.0.1:8080\r\n\
    x-amz-date: 20120525T002453Z\r\n\
    x-amz-glacier-version: 2012-06-01\r\n\
    Authorization: AWS4-HMAC-SHA256 Credential=AKIDEXAMPLE/20120525/us-east-1/glacier/aws4_request, SignedHeaders=host;x-amz-date;x-amz-glacier-version, Signature=9a1d15a1dbcd9867daa9e3c6df3c2a47b5affc8ab7013731da795bf3b0276ddf\r\n\r\n";

pub const GET_PART: &str =
    "GET /-/vaults/examplevault/jobs/j00000000000000000001/output HTTP/1.1\r\n\
    host: 127.0.0.1:8080\r\n\
    x-amz-date: 20120525T002453Z\r\n\
    x-amz-glacier-version: 2012-06-01\r\n\
    Range: bytes=1-3\r\n\
    Authorization: AWS4-HMAC-SHA256 Credential=AKIDEXAMPLE/20120525/us-east-1/glacier/aws4_request, SignedHeaders=host;x-amz-date;x-amz-glacier-version, Signature=9a1d15a1dbcd9867daa9e3c6df3c2a47b5affc8ab7013731da795bf3b0276ddf\r\n\r\n";

pub const DELETE_ARCHIVE: &str =
    "DELETE /-/vaults/examplevault/archives/a00000000000000000000 HTTP/1.1\r\n\
    host: 127.0.0.1:8080\r\n\
    x-amz-date: 20120525T002453Z\r\n\
    x-amz-glacier-version: 2012-06-01\r\n\
    Authorization: AWS4-HMAC-SHA256 Credential=AKIDEXAMPLE/20120525/us-east-1/glacier/aws4_request, SignedHeaders=host;x-amz-date;x-amz-glacier-version, Signature=0e20eb8ef0d7df8d615815f11334acc947441c21ab11ad42c24849d77f51502b\r\n\r\n";
