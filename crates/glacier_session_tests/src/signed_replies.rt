// Texts of signed replies: bench/signed_texts.py prints this file.

pub const CONTINUE: &str = "HTTP/1.1 100 Continue\r\n\r\n";

pub const MADE: &str = "HTTP/1.1 201 Created\r\n\
    Date: Fri, 25 May 2012 00:24:53 GMT\r\n\
    Location: /111122223333/vaults/examplevault\r\n\
    Content-Length: 0\r\n\r\n";

pub const MADE_LATER: &str = "HTTP/1.1 201 Created\r\n\
    Date: Fri, 25 May 2012 00:39:53 GMT\r\n\
    Location: /111122223333/vaults/examplevault\r\n\
    Content-Length: 0\r\n\r\n";

pub const MADE_VAULT: &str = "HTTP/1.1 201 Created\r\n\
    Date: Fri, 25 May 2012 00:24:53 GMT\r\n\
    Location: /111122223333/vaults/v\r\n\
    Content-Length: 0\r\n\r\n";

pub const DESCRIBED: &str = "HTTP/1.1 200 OK\r\n\
    Date: Fri, 25 May 2012 00:24:53 GMT\r\n\
    Content-Type: application/json\r\n\
    Content-Length: 204\r\n\r\n\
    {\"CreationDate\":\"2012-05-25T00:24:53.000Z\",\"LastInventoryDate\":null,\"NumberOfArchives\":0,\"SizeInBytes\":0,\"VaultARN\":\"arn:aws:glacier:us-east-1:111122223333:vaults/examplevault\",\"VaultName\":\"examplevault\"}";

pub const DELETED: &str = "HTTP/1.1 204 No Content\r\n\
    Date: Fri, 25 May 2012 00:24:53 GMT\r\n\r\n";

pub const DELETED_LATER: &str = "HTTP/1.1 204 No Content\r\n\
    Date: Fri, 25 May 2012 00:29:53 GMT\r\n\r\n";

pub const UPLOADED: &str = "HTTP/1.1 201 Created\r\n\
    Date: Fri, 25 May 2012 00:24:53 GMT\r\n\
    Location: /111122223333/vaults/examplevault/archives/a00000000000000000000\r\n\
    x-amz-sha256-tree-hash: 2cf24dba5fb0a30e26e83b2ac5b9e29e1b161e5c1fa7425e73043362938b9824\r\n\
    x-amz-archive-id: a00000000000000000000\r\n\
    Content-Length: 0\r\n\r\n";

pub const RETRIEVING: &str = "HTTP/1.1 202 Accepted\r\n\
    Date: Fri, 25 May 2012 00:24:53 GMT\r\n\
    Location: /111122223333/vaults/examplevault/jobs/j00000000000000000001\r\n\
    x-amz-job-id: j00000000000000000001\r\n\
    Content-Length: 0\r\n\r\n";

pub const NOT_READY: &str = "HTTP/1.1 400 Bad Request\r\n\
    Date: Fri, 25 May 2012 00:24:53 GMT\r\n\
    Content-Type: application/json\r\n\
    Content-Length: 107\r\n\r\n\
    {\"code\":\"InvalidParameterValueException\",\"message\":\"The job is ready at 20120525T002953Z.\",\"type\":\"Client\"}";

pub const OUTPUT: &str = "HTTP/1.1 200 OK\r\n\
    Date: Fri, 25 May 2012 00:29:53 GMT\r\n\
    x-amz-sha256-tree-hash: 2cf24dba5fb0a30e26e83b2ac5b9e29e1b161e5c1fa7425e73043362938b9824\r\n\
    Content-Type: application/octet-stream\r\n\
    Content-Length: 5\r\n\r\n\
    hello";

pub const PART: &str = "HTTP/1.1 206 Partial Content\r\n\
    Date: Fri, 25 May 2012 00:29:53 GMT\r\n\
    Content-Range: bytes 1-3/5\r\n\
    Content-Type: application/octet-stream\r\n\
    Content-Length: 3\r\n\r\n\
    ell";

pub const OTHER_BYTES: &str = "HTTP/1.1 400 Bad Request\r\n\
    Date: Fri, 25 May 2012 00:24:53 GMT\r\n\
    Content-Type: application/json\r\n\
    Content-Length: 221\r\n\r\n\
    {\"code\":\"InvalidParameterValueException\",\"message\":\"Content hash is d3751d33f9cd5049c4af2b462735457e4d3baf130bcbb87f389e349fbaeb20b9, not 2cf24dba5fb0a30e26e83b2ac5b9e29e1b161e5c1fa7425e73043362938b9824.\",\"type\":\"Client\"}";

pub const NO_SUCH: &str = "HTTP/1.1 404 Not Found\r\n\
    Date: Fri, 25 May 2012 00:24:53 GMT\r\n\
    Content-Type: application/json\r\n\
    Content-Length: 88\r\n\r\n\
    {\"code\":\"ResourceNotFoundException\",\"message\":\"Vault not found: nosuch\",\"type\":\"Client\"}";

pub const NO_VAULT: &str = "HTTP/1.1 404 Not Found\r\n\
    Date: Fri, 25 May 2012 00:24:53 GMT\r\n\
    Content-Type: application/json\r\n\
    Content-Length: 94\r\n\r\n\
    {\"code\":\"ResourceNotFoundException\",\"message\":\"Vault not found: examplevault\",\"type\":\"Client\"}";

pub const NO_VAULT_AND_CLOSE: &str = "HTTP/1.1 404 Not Found\r\n\
    Date: Fri, 25 May 2012 00:24:53 GMT\r\n\
    Content-Type: application/json\r\n\
    Connection: close\r\n\
    Content-Length: 94\r\n\r\n\
    {\"code\":\"ResourceNotFoundException\",\"message\":\"Vault not found: examplevault\",\"type\":\"Client\"}";

pub const TOO_LONG: &str = "HTTP/1.1 400 Bad Request\r\n\
    Date: Fri, 25 May 2012 00:24:53 GMT\r\n\
    Content-Type: application/json\r\n\
    Connection: close\r\n\
    Content-Length: 79\r\n\r\n\
    {\"code\":\"BadRequest\",\"message\":\"The request head is too long.\",\"type\":\"Client\"}";

pub const OTHER_ACCOUNT: &str = "HTTP/1.1 403 Forbidden\r\n\
    Date: Fri, 25 May 2012 00:24:53 GMT\r\n\
    Content-Type: application/json\r\n\
    Content-Length: 93\r\n\r\n\
    {\"code\":\"AccessDeniedException\",\"message\":\"The account is not the signer's.\",\"type\":\"Client\"}";

pub const MISSING: &str = "HTTP/1.1 400 Bad Request\r\n\
    Date: Fri, 25 May 2012 00:24:53 GMT\r\n\
    Content-Type: application/json\r\n\
    Content-Length: 114\r\n\r\n\
    {\"code\":\"MissingAuthenticationTokenException\",\"message\":\"Authorization or x-amz-date is missing.\",\"type\":\"Client\"}";

pub const MALFORMED: &str = "HTTP/1.1 403 Forbidden\r\n\
    Date: Fri, 25 May 2012 00:24:53 GMT\r\n\
    Content-Type: application/json\r\n\
    Content-Length: 106\r\n\r\n\
    {\"code\":\"InvalidSignatureException\",\"message\":\"Authorization or x-amz-date is not valid.\",\"type\":\"Client\"}";

pub const UNKNOWN_KEY: &str = "HTTP/1.1 403 Forbidden\r\n\
    Date: Fri, 25 May 2012 00:24:53 GMT\r\n\
    Content-Type: application/json\r\n\
    Content-Length: 95\r\n\r\n\
    {\"code\":\"UnrecognizedClientException\",\"message\":\"The access key is not known.\",\"type\":\"Client\"}";

pub const WRONG_SCOPE: &str = "HTTP/1.1 403 Forbidden\r\n\
    Date: Fri, 25 May 2012 00:24:53 GMT\r\n\
    Content-Type: application/json\r\n\
    Content-Length: 99\r\n\r\n\
    {\"code\":\"InvalidSignatureException\",\"message\":\"The credential scope does not fit.\",\"type\":\"Client\"}";

pub const UNSIGNED: &str = "HTTP/1.1 403 Forbidden\r\n\
    Date: Fri, 25 May 2012 00:24:53 GMT\r\n\
    Content-Type: application/json\r\n\
    Content-Length: 102\r\n\r\n\
    {\"code\":\"InvalidSignatureException\",\"message\":\"Not signed: x-amz-archive-description\",\"type\":\"Client\"}";

pub const SKEWED: &str = "HTTP/1.1 403 Forbidden\r\n\
    Date: Fri, 25 May 2012 00:39:54 GMT\r\n\
    Content-Type: application/json\r\n\
    Content-Length: 124\r\n\r\n\
    {\"code\":\"InvalidSignatureException\",\"message\":\"The date 20120525T002453Z is too far from 20120525T003954Z.\",\"type\":\"Client\"}";

pub const BAD_SIGNATURE: &str = "HTTP/1.1 403 Forbidden\r\n\
    Date: Fri, 25 May 2012 00:24:53 GMT\r\n\
    Content-Type: application/json\r\n\
    Content-Length: 94\r\n\r\n\
    {\"code\":\"InvalidSignatureException\",\"message\":\"The signature does not match.\",\"type\":\"Client\"}";

pub const HASH_NEEDED: &str = "HTTP/1.1 400 Bad Request\r\n\
    Date: Fri, 25 May 2012 00:24:53 GMT\r\n\
    Content-Type: application/json\r\n\
    Content-Length: 119\r\n\r\n\
    {\"code\":\"MissingParameterValueException\",\"message\":\"x-amz-content-sha256 is needed for 1048577 bytes.\",\"type\":\"Client\"}";

pub const NO_ROUTE: &str = "HTTP/1.1 404 Not Found\r\n\
    Date: Fri, 25 May 2012 00:24:53 GMT\r\n\
    Content-Type: application/json\r\n\
    Content-Length: 83\r\n\r\n\
    {\"code\":\"ResourceNotFoundException\",\"message\":\"No such operation.\",\"type\":\"Client\"}";

pub const BAD_NAME: &str = "HTTP/1.1 400 Bad Request\r\n\
    Date: Fri, 25 May 2012 00:24:53 GMT\r\n\
    Content-Type: application/json\r\n\
    Content-Length: 98\r\n\r\n\
    {\"code\":\"InvalidParameterValueException\",\"message\":\"The vault name is not valid.\",\"type\":\"Client\"}";

pub const TOKEN: &str = "HTTP/1.1 400 Bad Request\r\n\
    Date: Fri, 25 May 2012 00:24:53 GMT\r\n\
    Content-Type: application/json\r\n\
    Content-Length: 107\r\n\r\n\
    {\"code\":\"InvalidParameterValueException\",\"message\":\"x-amz-security-token is not accepted.\",\"type\":\"Client\"}";

pub const WITHOUT_VERSION: &str = "HTTP/1.1 400 Bad Request\r\n\
    Date: Fri, 25 May 2012 00:24:53 GMT\r\n\
    Content-Type: application/json\r\n\
    Content-Length: 103\r\n\r\n\
    {\"code\":\"MissingParameterValueException\",\"message\":\"x-amz-glacier-version is missing.\",\"type\":\"Client\"}";

pub const OTHER_VERSION: &str = "HTTP/1.1 400 Bad Request\r\n\
    Date: Fri, 25 May 2012 00:24:53 GMT\r\n\
    Content-Type: application/json\r\n\
    Content-Length: 110\r\n\r\n\
    {\"code\":\"InvalidParameterValueException\",\"message\":\"x-amz-glacier-version is not 2012-06-01.\",\"type\":\"Client\"}";

pub const BAD_SYNTAX: &str = "HTTP/1.1 400 Bad Request\r\n\
    Date: Fri, 25 May 2012 00:24:53 GMT\r\n\
    Content-Type: application/json\r\n\
    Connection: close\r\n\
    Content-Length: 80\r\n\r\n\
    {\"code\":\"BadRequest\",\"message\":\"The request head is not valid.\",\"type\":\"Client\"}";

pub const BAD_LENGTH: &str = "HTTP/1.1 400 Bad Request\r\n\
    Date: Fri, 25 May 2012 00:24:53 GMT\r\n\
    Content-Type: application/json\r\n\
    Connection: close\r\n\
    Content-Length: 82\r\n\r\n\
    {\"code\":\"BadRequest\",\"message\":\"The Content-Length is not valid.\",\"type\":\"Client\"}";

pub const BAD_CODING: &str = "HTTP/1.1 400 Bad Request\r\n\
    Date: Fri, 25 May 2012 00:24:53 GMT\r\n\
    Content-Type: application/json\r\n\
    Connection: close\r\n\
    Content-Length: 84\r\n\r\n\
    {\"code\":\"BadRequest\",\"message\":\"Transfer-Encoding is not accepted.\",\"type\":\"Client\"}";

pub const BAD_PATH: &str = "HTTP/1.1 400 Bad Request\r\n\
    Date: Fri, 25 May 2012 00:24:53 GMT\r\n\
    Content-Type: application/json\r\n\
    Connection: close\r\n\
    Content-Length: 92\r\n\r\n\
    {\"code\":\"InvalidParameterValueException\",\"message\":\"The path is not valid.\",\"type\":\"Client\"}";

pub const BODY_TOO_LONG: &str = "HTTP/1.1 400 Bad Request\r\n\
    Date: Fri, 25 May 2012 00:24:53 GMT\r\n\
    Content-Type: application/json\r\n\
    Content-Length: 97\r\n\r\n\
    {\"code\":\"InvalidParameterValueException\",\"message\":\"The body has 1048577 bytes.\",\"type\":\"Client\"}";

pub const BAD_HEADER: &str = "HTTP/1.1 400 Bad Request\r\n\
    Date: Fri, 25 May 2012 00:24:53 GMT\r\n\
    Content-Type: application/json\r\n\
    Content-Length: 102\r\n\r\n\
    {\"code\":\"InvalidParameterValueException\",\"message\":\"Bad header: x-amz-content-sha256\",\"type\":\"Client\"}";

pub const MISMATCH: &str = "HTTP/1.1 400 Bad Request\r\n\
    Date: Fri, 25 May 2012 00:24:53 GMT\r\n\
    Content-Type: application/json\r\n\
    Content-Length: 221\r\n\r\n\
    {\"code\":\"InvalidParameterValueException\",\"message\":\"Content hash is ba7816bf8f01cfea414140de5dae2223b00361a396177a9cb410ff61f20015ad, not e3b0c44298fc1c149afbf4c8996fb92427ae41e4649b934ca495991b7852b855.\",\"type\":\"Client\"}";
